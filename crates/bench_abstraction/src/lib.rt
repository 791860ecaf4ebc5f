//! The events that the bench takes; what the bench sees of its nodes by the ledger, and how an event of one changes it.
#![tactic(auto)]

mod calls;
pub mod laws;
mod routing;

pub use calls::{
    AckCall, AskCall, BalanceCall, CentreCall, CloseCall, DebitCall, DepositCall, DeviceCall,
    FlagCall, Handed, HostCall, MakeCall, OpenCall, OrderCall, PrintCall, RegisterCall, ResendCall,
    ScanCall, SendCall, TakeReleaseCall, TakeReplyCall, TakeRequestCall, TrustCall, VerifierCall,
};
pub use routing::{OfDay, Routed, route};
