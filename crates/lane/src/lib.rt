// Both ends of the lane (document 01, Sender and Receiver), above the crate `frame`. The receiver stands here, above `lane_modes`; the
// sender's calls are those of `lane_sender`, passed on. What each call gives is defined in `lane_rules`, whose types are passed on too.
// No public call has a precondition: what it can't take it refuses by document 01's refusal, and the caller's record stays as it was.
#![tactic(auto)]

mod feeding;
mod frames;
mod receiver;
mod summing;

pub use feeding::feed;
pub use frames::feed_frames;
pub use lane_rules::{Fed, Mode, Partial, Receiver, Sender, Sent, Stop, Sums};
pub use lane_sender::{send, start, start_with, sync, sync_by_value};
pub use receiver::{fresh, receiver_sync};
