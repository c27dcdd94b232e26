// What a bit and a byte of the line make of the receiver's mode (document 01, Receiver), and which modes are admitted. What each call
// gives is defined in `lane_rules`. These calls are for the crates above, not for users: what a call requires, each of its callers is
// proved to give.
#![tactic(auto)]

mod admission;
mod byte_steps;
mod collecting;
mod judging;

pub use admission::{Admitted, mode_admitted};
