// The lower layer of the lane (document 01, Scrambler and Frame): the scrambler, the lanes' seeds, and one frame built
// and read. No call here has a precondition: what it can't take it refuses as document 01 says.
#![tactic(auto)]

mod frame;
mod scrambler;
mod seeds;

pub use frame::{
    Built, Reading, build, disparity, is_running_disparity, read, read_sample, scramble,
};
pub use scrambler::{advance, is_state, next};
pub use seeds::{check_seed, lane_seed};
