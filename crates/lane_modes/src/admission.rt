// Which modes are admitted: every part of the mode is in its range.
ghost use Rattle.std.specs.Prelude.{◌≡◌, true};
ghost use Rattle.lane_rules.specs.Receiver.{part_admitted, results_admitted, mode_admitted};

use lane_rules::{Mode, Partial};

// An admitted mode. What a bit, a byte and a frame do to it are its methods.
#[derive(Clone, Copy)]
pub struct Admitted {
    pub mode: Mode,
    pub ghost in_range: { mode_admitted mode ≡ true },
}

// Of the eight results that Locked holds, at most three are faults.
pub(crate) const MOST_FAULTS: u32 = 3;

// Whether the bits held of a frame are 0 to 15, with 0 in the places not held.
#[tactic(auto, unfolding(lane_rules::specs::Receiver::part_admitted))]
fn part_admitted(part: Partial) -> bool
    ensures { result ≡ part_admitted part }
{
    part.count <= 15 && part.bits < (1u32 << part.count)
}

// Whether the results are of eight frames, at most three of them faulty.
#[tactic(auto, using(crate::proofs::Steps::FaultCounts::count_faults), unfolding(lane_rules::specs::Receiver::results_admitted))]
fn results_admitted(results: u32) -> bool
    ensures { result ≡ results_admitted results }
{
    results <= 255 && results.count_ones() <= MOST_FAULTS
}

// Whether every part of a mode is in its range.
#[tactic(auto, unfolding(lane_rules::specs::Receiver::mode_admitted, frame::specs::Frame::is_clock))]
pub fn mode_admitted(mode: Mode) -> bool
    ensures { result ≡ mode_admitted mode }
{
    match mode {
        Mode::Hunt { bits, count } => count <= 32 && (bits as u64) < (1u64 << count),
        Mode::Flash { part, frame } => part_admitted(part) && (frame == 0xFF00 || frame == 0x00FF),
        Mode::First { part, word, clock } => part_admitted(part) && (word <= 16383 && clock <= 1),
        Mode::Prove {
            part,
            read,
            state,
            clock,
        } => part_admitted(part)
            && (2 <= read && (read <= 31 && (frame::is_state(state) && clock <= 1))),
        Mode::Locked {
            part,
            results,
            state,
            clock,
        } => part_admitted(part)
            && (results_admitted(results) && (frame::is_state(state) && clock <= 1)),
    }
}
