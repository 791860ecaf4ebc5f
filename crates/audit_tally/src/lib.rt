//! What an audit counts of lines, apart from what its auditor knows: the commit that a reply reports, jobs, pieces, requests, refusals and failures.
#![tactic(auto)]

mod causes;
mod counts;
mod incidents;
mod jobs;
mod kinds;
mod own;
mod pieces;
mod place;
mod requests;
mod sends;

pub use causes::{Cause, Causes};
pub use counts::{Tally, is_given_again, one_more};
pub use incidents::{Incident, Incidents, Mishap, Outcome, mishap_at};
pub use jobs::{Job, Jobs};
pub use kinds::{Doing, doing_of, entry_of};
pub use own::{Budget, OwnSums};
pub use pieces::{Piece, Pieces};
pub use place::Place;
pub use requests::{Ask, Ungranted};
pub use sends::Sends;
