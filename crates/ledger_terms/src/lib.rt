//! What follows from a list of commits: sums, devices, the centre, rulings, requests, marks. Definitions alone.
#![tactic(auto)]
