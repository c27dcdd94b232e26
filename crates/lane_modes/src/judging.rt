// Judging a whole frame: a mode and a frame give a mode and an outcome. How the bits were collected and the totals are not known here.
ghost use Rattle.std.specs.Prelude.{◌≡◌, true, ◌≤◌};
ghost use Rattle.frame.specs.Scrambler.{is_state};
ghost use Rattle.lane_rules.specs.Receiver.{results_admitted};
ghost use Rattle.lane_rules.specs.Judging.{fault_rule, judge_flash, judge_first, judge_prove, judge_locked, proved, judge_of};

use crate::admission::{Admitted, MOST_FAULTS};
use lane_rules::{Judged, Mode, Outcome, Partial};

// The rule on faults: the results where lock is kept; the fourth fault among the last eight frames loses it.
fn fault_rule(results: u32, faulty: bool) -> Option<u32>
    requires { results_admitted results ≡ true }
    ensures { result ≡ fault_rule results faulty }
{
    let after = (2 * results + u32::from(faulty)) % 256;
    (after.count_ones() <= MOST_FAULTS).then_some(after)
}

// Flash: the held frame inverted is held instead; any other frame is read and leads to First.
#[tactic(auto, unfolding(lane_rules::specs::Judging::judge_flash))]
fn judge_flash(held: u32, frame: u16) -> Mode
    requires { held ≤ 65535 }
    ensures { result ≡ judge_flash held frame }
{
    let now = frame as u32;
    if now == 65535 - held {
        return Mode::Flash {
            part: Partial::NONE,
            frame: now,
        };
    }
    let content = frame::read(frame);
    Mode::First {
        part: Partial::NONE,
        word: content.scrambled as u32,
        clock: content.clock,
    }
}

// First: the state is recovered from the held data and this frame's; it must be a state, so not 0, and must give this frame's data.
fn judge_first(word: u32, clock: u32, frame: u16) -> Mode
    requires { word ≤ 16383 }
    ensures { result ≡ judge_first word clock frame }
{
    let content = frame::read(frame);
    let q = content.scrambled as u32;
    let seen = content.clock;
    let recovered = word + 16384 * (q % 8);
    if seen == clock {
        return Mode::HUNTING;
    }
    let Ok(second) = frame::next(recovered) else {
        return Mode::HUNTING;
    };
    if q != second % 16384 {
        return Mode::HUNTING;
    }
    Mode::Prove {
        part: Partial::NONE,
        read: 2,
        state: frame::advance(second),
        clock: seen,
    }
}

// Prove: the data must be the state's word and the clock bit must differ from the last; after the 32nd frame, Locked, which expects
// the other clock bit next.
fn judge_prove(read: u32, state: u32, clock: u32, frame: u16) -> Mode
    requires read_bound { read ≤ 31 }
    requires state_value { is_state state ≡ true }
    ensures { result ≡ judge_prove read state clock frame }
{
    let content = frame::read(frame);
    let q = content.scrambled as u32;
    let seen = content.clock;
    if q != state % 16384 || seen == clock {
        return Mode::HUNTING;
    }
    let Ok(after) = frame::next(state) else {
        return Mode::HUNTING;
    };
    if read < 31 {
        return Mode::Prove {
            part: Partial::NONE,
            read: read + 1,
            state: after,
            clock: seen,
        };
    }
    Mode::Locked {
        part: Partial::NONE,
        results: 0,
        state: after,
        clock: 1 - seen,
    }
}

// Locked: a clock bit other than the expected one is a fault and the item a gap; otherwise the item is the sample. The state steps and
// the expected clock bit toggles either way.
fn judge_locked(results: u32, state: u32, clock: u32, frame: u16) -> Judged
    requires results_value { results_admitted results ≡ true }
    requires clock_bound { clock ≤ 1 }
    ensures { result ≡ judge_locked results state clock frame }
{
    let content = frame::read(frame);
    let disparity = content.disparity;
    let faulty = content.clock != clock;
    let Some(after) = fault_rule(results, faulty) else {
        return Judged {
            mode: Mode::HUNTING,
            outcome: Outcome::Loss { disparity },
        };
    };
    let stepped = frame::advance(state);
    let expected = 1 - clock;
    let mode = Mode::Locked {
        part: Partial::NONE,
        results: after,
        state: stepped,
        clock: expected,
    };
    if faulty {
        return Judged {
            mode,
            outcome: Outcome::Gap { disparity },
        };
    }
    let sample = frame::scramble(content.scrambled, state);
    Judged {
        mode,
        outcome: Outcome::Sample { sample, disparity },
    }
}

// A mode with nothing handed out.
pub(crate) fn quiet(mode: Mode) -> Judged
    ensures { result ≡ record { mode = mode; outcome = Outcome.Nothing } }
{
    Judged {
        mode,
        outcome: Outcome::Nothing,
    }
}

// A mode after Prove: with Locked, lock is found.
fn proved(mode: Mode) -> Judged
    ensures { result ≡ proved mode }
{
    let Mode::Locked { .. } = mode else {
        return quiet(mode);
    };
    Judged {
        mode,
        outcome: Outcome::Found,
    }
}

impl Admitted {
    // What a whole frame does to a mode; Hunt judges none. Always inlined: with two callers the compiler would inline it in neither,
    // and feeding bit by bit would take five times as long.
    #[inline(always)]
    #[tactic(auto, unfolding(lane_rules::specs::Judging::judge_of))]
    pub(crate) fn judge(self, frame: u16) -> Judged
        ensures { result ≡ judge_of self.mode frame }
    {
        match self.mode {
            Mode::Hunt { .. } => quiet(self.mode),
            Mode::Flash { frame: held, .. } => quiet(judge_flash(held, frame)),
            Mode::First { word, clock, .. } => quiet(judge_first(word, clock, frame)),
            Mode::Prove {
                read,
                state,
                clock,
                ..
            } => proved(judge_prove(read, state, clock, frame)),
            Mode::Locked {
                results,
                state,
                clock,
                ..
            } => judge_locked(results, state, clock, frame),
        }
    }
}
