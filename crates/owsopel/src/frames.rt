// The scrambler, the lanes' seeds and single frames for C. Kept for C: an answer is a struct with the refusal's number, since a `Result` can't
// cross.
ghost use Rattle.std.specs.Prelude.{◌≡◌, ◌*◌};
ghost use Rattle.frame.specs.Scrambler.{next_answer};
ghost use Rattle.frame.specs.Seeds.{seed_answer, lane_seed, FirstPermitted};
ghost use Rattle.frame.specs.Frame.{disparity_of, build_answer, reading_of, sample_answer};
ghost use Rattle.frame.specs.Answers.{checked_values};
ghost use Rattle.owsopel.specs.Answers.{flat_stepped, flat_built, flat_sampled};

use frame::Reading;

// The answer of a step: the refusal, 0 where taken, and the next state, 0 where refused.
#[repr(C)]
#[derive(Clone, Copy)]
pub struct FlatStepped {
    pub refusal: u8,
    pub state: u32,
}

// The answer of building: the refusal, 0 where taken, the frame and the new R, zeros where refused.
#[repr(C)]
#[derive(Clone, Copy)]
pub struct FlatBuilt {
    pub refusal: u8,
    pub frame: u16,
    pub r: i32,
}

// The answer of reading a sample: the refusal, 0 where taken, and the sample, 0 where refused.
#[repr(C)]
#[derive(Clone, Copy)]
pub struct FlatSampled {
    pub refusal: u8,
    pub sample: u16,
}

// The state after the given one.
pub fn ows_next(state: u32) -> FlatStepped
    ensures { result ≡ flat_stepped (next_answer state) }
{
    match frame::next(state) {
        Ok(next) => FlatStepped {
            refusal: 0,
            state: next,
        },
        Err(refusal) => FlatStepped {
            refusal: refusal.number(),
            state: 0,
        },
    }
}

// Whether a sender can start with a seed: 0, or the number of the refusal.
pub fn ows_check_seed(seed: u32) -> u8
    ensures { result ≡ checked_values (seed_answer seed) }
{
    match frame::check_seed(seed) {
        Ok(()) => 0,
        Err(refusal) => refusal.number(),
    }
}

// The seed of a lane.
pub fn ows_lane_seed(lane: u8) -> u32
    ensures { (result ≡ lane_seed lane) × FirstPermitted (512 * lane) result }
{
    frame::lane_seed(lane)
}

// The disparity of a frame.
pub fn ows_disparity(frame: u16) -> i32
    ensures { result ≡ disparity_of frame }
{
    frame::disparity(frame)
}

// The frame of a sample, and the new R.
pub fn ows_build(sample: u16, state: u32, clock: u32, r: i32) -> FlatBuilt
    ensures { result ≡ flat_built (build_answer sample state clock r) }
{
    match frame::build(sample, state, clock, r) {
        Ok(built) => FlatBuilt {
            refusal: 0,
            frame: built.frame,
            r: built.r,
        },
        Err(refusal) => FlatBuilt {
            refusal: refusal.number(),
            frame: 0,
            r: 0,
        },
    }
}

// A frame's clock bit and data, its disparity and whether it was inverted.
pub fn ows_read(frame: u16) -> Reading
    ensures { result ≡ reading_of frame }
{
    frame::read(frame)
}

// The sample of a frame, with the state that scrambled it.
pub fn ows_read_sample(frame: u16, state: u32) -> FlatSampled
    ensures { result ≡ flat_sampled (sample_answer frame state) }
{
    match frame::read_sample(frame, state) {
        Ok(sample) => FlatSampled { refusal: 0, sample },
        Err(refusal) => FlatSampled {
            refusal: refusal.number(),
            sample: 0,
        },
    }
}
