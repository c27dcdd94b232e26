// One bit: Hunt looks for two alignment frames among its latest bits; the other modes collect a frame and judge it.
ghost use Rattle.std.specs.Prelude.{◌≡◌, ◌+◌, ◌*◌, ◌^◌, ◌<◌, ◌≤◌};
ghost use Rattle.lane_rules.specs.Collecting.{is_alignment, hunt_with, hunt_of, collect_of, held_part, holding, collected, step_of};

use crate::admission::Admitted;
use crate::judging::quiet;
use lane_rules::{Collected, Judged, Mode, Partial};

// A bit in the place above those held.
fn placed(bits: u32, count: u32, bit: u32) -> u32
    requires { (count < 32) × (bits < 2 ^ count) × (bit < 2) }
    ensures { (result ≡ bits + bit * 2 ^ count) × (result < 2 ^ (count + 1)) }
{
    bits + (bit << count)
}

// Whether the bits held are 32 and two alignment frames, 0xFF00 and 0x00FF in either order, the earlier one lowest.
#[tactic(auto, unfolding(lane_rules::specs::Collecting::alignment_pair))]
fn is_alignment(bits: u32, count: u32) -> bool
    ensures { result ≡ is_alignment bits count }
{
    count == 32 && (bits == 0x00FF_FF00 || bits == 0xFF00_00FF)
}

// What goes by any mode, admitted or not, stays a function: `Mode` and `Partial` are of `lane_rules`, and can have no methods here.

// Hunt with these bits: 32 that are two alignment frames lead to Flash, which holds the later.
#[tactic(auto, unfolding(lane_rules::specs::Collecting::hunt_with))]
fn hunt_with(bits: u32, count: u32) -> Mode
    ensures { result ≡ hunt_with bits count }
{
    if is_alignment(bits, count) {
        Mode::Flash {
            part: Partial::NONE,
            frame: bits / 0x1_0000,
        }
    } else {
        Mode::Hunt { bits, count }
    }
}

// Hunt with one bit more; once 32 are held the earliest goes.
#[tactic(auto, unfolding(lane_rules::specs::Collecting::hunt_of))]
pub(crate) fn hunt(bits: u32, count: u32, bit: u32) -> Mode
    requires { (count ≤ 32) × (bits < 2 ^ count) × (bit < 2) }
    ensures { result ≡ hunt_of bits count bit }
{
    if count < 32 {
        hunt_with(placed(bits, count, bit), count + 1)
    } else {
        hunt_with(bits / 2 + bit * 0x8000_0000, 32)
    }
}

// The bits of a frame that a mode holds; Hunt collects no frame.
#[tactic(auto, unfolding(lane_rules::specs::Collecting::held_part))]
pub(crate) fn held_part(mode: Mode) -> Partial
    ensures { result ≡ held_part mode }
{
    match mode {
        Mode::Hunt { .. } => Partial::NONE,
        Mode::Flash { part, .. }
        | Mode::First { part, .. }
        | Mode::Prove { part, .. }
        | Mode::Locked { part, .. } => part,
    }
}

// A mode with other bits of a frame held.
#[tactic(auto, unfolding(lane_rules::specs::Collecting::holding))]
pub(crate) fn hold(mode: Mode, part: Partial) -> Mode
    ensures { result ≡ holding mode part }
{
    match mode {
        Mode::Hunt { .. } => mode,
        Mode::Flash { frame, .. } => Mode::Flash { part, frame },
        Mode::First { word, clock, .. } => Mode::First { part, word, clock },
        Mode::Prove {
            read,
            state,
            clock,
            ..
        } => Mode::Prove {
            part,
            read,
            state,
            clock,
        },
        Mode::Locked {
            results,
            state,
            clock,
            ..
        } => Mode::Locked {
            part,
            results,
            state,
            clock,
        },
    }
}

impl Admitted {
    // One bit more of a frame.
    #[tactic(auto, unfolding(lane_rules::specs::Collecting::collect_of))]
    fn collect(self, bit: u32) -> Collected
        requires { bit < 2 }
        ensures { result ≡ collect_of (held_part self.mode) bit }
    {
        let part = held_part(self.mode);
        let bits = placed(part.bits, part.count, bit);
        if part.count < 15 {
            Collected::Part(Partial {
                bits,
                count: part.count + 1,
            })
        } else {
            Collected::Frame(bits as u16)
        }
    }

    // A bit in a mode that collects frames: the frame is judged once it is whole.
    #[tactic(auto, unfolding(lane_rules::specs::Collecting::collected))]
    fn collect_bit(self, bit: u32) -> Judged
        requires { bit < 2 }
        ensures { result ≡ collected self.mode (collect_of (held_part self.mode) bit) }
    {
        match self.collect(bit) {
            Collected::Part(part) => quiet(hold(self.mode, part)),
            Collected::Frame(frame) => self.judge(frame),
        }
    }

    // What one bit does to a mode.
    #[tactic(auto, unfolding(lane_rules::specs::Collecting::step_of))]
    pub fn step(self, bit: u32) -> Judged
        requires { bit < 2 }
        ensures { result ≡ step_of self.mode bit }
    {
        let Mode::Hunt { bits, count } = self.mode else {
            return self.collect_bit(bit);
        };
        quiet(hunt(bits, count, bit))
    }
}
