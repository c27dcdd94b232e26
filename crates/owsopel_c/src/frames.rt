// The scrambler, the lanes' seeds and single frames for C.
ghost use Rattle.std.specs.Prelude.{◌≡◌, ◌*◌};
ghost use Rattle.frame.specs.Scrambler.{next_answer};
ghost use Rattle.frame.specs.Seeds.{seed_answer, lane_seed, FirstPermitted};
ghost use Rattle.frame.specs.Frame.{disparity_of, build_answer, reading_of, sample_answer};
ghost use Rattle.frame.specs.Answers.{checked_values};
ghost use Rattle.owsopel.specs.Answers.{flat_stepped, flat_built, flat_sampled};

use frame::Reading;
use owsopel::{FlatBuilt, FlatSampled, FlatStepped};

// The state after the given one.
#[unsafe(no_mangle)]
pub extern "C" fn ows_next(state: u32) -> FlatStepped
    ensures { result ≡ flat_stepped (next_answer state) }
{
    owsopel::ows_next(state)
}

// Whether a sender can start with a seed: 0, or the number of the refusal.
#[unsafe(no_mangle)]
pub extern "C" fn ows_check_seed(seed: u32) -> u8
    ensures { result ≡ checked_values (seed_answer seed) }
{
    owsopel::ows_check_seed(seed)
}

// The seed of a lane.
#[unsafe(no_mangle)]
pub extern "C" fn ows_lane_seed(lane: u8) -> u32
    ensures { (result ≡ lane_seed lane) × FirstPermitted (512 * lane) result }
{
    owsopel::ows_lane_seed(lane)
}

// The disparity of a frame.
#[unsafe(no_mangle)]
pub extern "C" fn ows_disparity(frame: u16) -> i32
    ensures { result ≡ disparity_of frame }
{
    owsopel::ows_disparity(frame)
}

// The frame of a sample, and the new R.
#[unsafe(no_mangle)]
pub extern "C" fn ows_build(sample: u16, state: u32, clock: u32, r: i32) -> FlatBuilt
    ensures { result ≡ flat_built (build_answer sample state clock r) }
{
    owsopel::ows_build(sample, state, clock, r)
}

// A frame's clock bit and data, its disparity and whether it was inverted.
#[unsafe(no_mangle)]
pub extern "C" fn ows_read(frame: u16) -> Reading
    ensures { result ≡ reading_of frame }
{
    owsopel::ows_read(frame)
}

// The sample of a frame, with the state that scrambled it.
#[unsafe(no_mangle)]
pub extern "C" fn ows_read_sample(frame: u16, state: u32) -> FlatSampled
    ensures { result ≡ flat_sampled (sample_answer frame state) }
{
    owsopel::ows_read_sample(frame, state)
}
