//! Orders: that an order which counts goes on counting, that the message which is sent for a job has the postage of its order, and
//! which job of a device is open, by the states of all jobs.
#![tactic(auto)]

pub mod laws;
