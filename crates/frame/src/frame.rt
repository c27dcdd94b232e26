// One frame: built from a sample, and read.
ghost use Rattle.std.specs.Prelude.{◌≡◌, true};
ghost use Rattle.frame.specs.Frame.{within, disparity_bit, disparity_of, built, uninverted};
ghost use Rattle.frame.specs.Frame.{scrambled_data, build_answer, reading_of, sample_answer};

use crate::scrambler::is_state;
use refusal::Refusal;

// A frame, and the running disparity after it.
#[derive(Clone, Copy)]
pub struct Built {
    pub frame: u16,
    pub r: i32,
}

// What a frame holds: its clock bit and its scrambled data (document 01's data), 0 to 16383; and, as received, its ones minus its
// zeros and whether it was inverted, 0 or 1.
#[repr(C)]
#[derive(Clone, Copy)]
pub struct Reading {
    pub clock: u32,
    pub scrambled: u16,
    pub disparity: i32,
    pub inverted: u32,
}

// The disparity of a frame: its ones minus its zeros.
pub fn disparity(frame: u16) -> i32
    ensures { result ≡ disparity_of frame }
{
    let ones = frame.count_ones();
    let zeros = 16 - ones;
    (ones as i32) - (zeros as i32)
}

// Whether a running disparity is in its range, -16 to 16.
pub fn is_running_disparity(r: i32) -> bool
    ensures { result ≡ within 16 r }
{
    // Kept as two comparisons, as in `is_state`.
    -16 <= r && r <= 16
}

// The disparity bit that the rule on R chooses for a frame of disparity d: 1 where the frame is inverted.
fn disparity_bit(r: i32, d: i32) -> u16
    requires r_value { within 16 r ≡ true }
    requires d_value { within 16 d ≡ true }
    ensures { result ≡ disparity_bit r d }
{
    let sum = r + d;
    // Kept as one test without a branch, which document 02 asks of what the disparity bit decides (Q-4).
    let outside = (sum < -16) | (16 < sum);
    outside as u16
}

// A frame with disparity bit 0, sent as it is or inverted, and the new R. No branch depends on the disparity bit.
fn sent_frame(plain: u16, r: i32) -> Built
    requires { within 16 r ≡ true }
    ensures { result ≡ built plain r }
{
    let d = disparity(plain);
    let bit = disparity_bit(r, d);
    let sign = 1 - 2 * (bit as i32);
    Built {
        frame: plain ^ (65535 * bit),
        r: r + d * sign,
    }
}

// A number xor the word of a state: a sample is scrambled, and scrambled data is the sample again. Of any number the 14 lowest bits count.
pub fn scramble(x: u16, state: u32) -> u16
    ensures { result ≡ scrambled_data x state }
{
    let word = (state % 0x4000) as u16;
    x ^ word
}

// The frame of a sample, and the new R. Refusals: 3 for the state or the clock bit; then 5 for R; then 4 for the sample.
pub fn build(sample: u16, state: u32, clock: u32, r: i32) -> Result<Built, Refusal>
    ensures { result ≡ build_answer sample state clock r }
{
    if !is_state(state) || 1 < clock {
        return Err(Refusal::Record);
    }
    if !is_running_disparity(r) {
        return Err(Refusal::Disparity);
    }
    if 16383 < sample {
        return Err(Refusal::Sample);
    }
    let plain = (clock as u16) * 0x4000 + scramble(sample, state);
    Ok(sent_frame(plain, r))
}

// A frame with its inversion undone. No branch depends on the disparity bit.
fn undo_inversion(frame: u16) -> u16
    ensures { result ≡ uninverted frame }
{
    let bit = frame / 0x8000 % 2;
    frame ^ (65535 * bit)
}

// A frame's clock bit and data, its disparity and whether it was inverted.
pub fn read(frame: u16) -> Reading
    ensures { result ≡ reading_of frame }
{
    let plain = undo_inversion(frame);
    Reading {
        clock: (plain / 0x4000 % 2) as u32,
        scrambled: plain % 0x4000,
        disparity: disparity(frame),
        inverted: (frame / 0x8000 % 2) as u32,
    }
}

// The sample of a frame, with the state that scrambled it. Refusal 3: no state.
pub fn read_sample(frame: u16, state: u32) -> Result<u16, Refusal>
    ensures { result ≡ sample_answer frame state }
{
    if !is_state(state) {
        return Err(Refusal::Record);
    }
    let content = read(frame);
    Ok(scramble(content.scrambled, state))
}
