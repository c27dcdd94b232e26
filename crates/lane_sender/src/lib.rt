// The sending end of the lane (document 01, Sender), above the crate `frame`. What each call gives is defined in `lane_rules`. No public
// call has a precondition: what it can't take it refuses by document 01's refusal, and the caller's record stays as it was.
#![tactic(auto)]

mod sender;
mod sending;

pub use sender::{start, start_with, sync, sync_by_value};
pub use sending::send;
