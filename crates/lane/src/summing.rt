// The sums of the frames' disparities in Locked, each held at the limits of 32 signed bits. What goes by them stays functions: `Sums` is of
// `lane_rules`, and can have no methods here.
ghost use Rattle.std.specs.Prelude.{◌≡◌, true, ◌+ℤ◌};
ghost use Rattle.frame.specs.Frame.{within};
ghost use Rattle.lane_rules.specs.Outcomes.{OutcomeIn};
ghost use Rattle.lane_rules.specs.Sums.{no_sums, largest_sum, with_sum, with_frame, sums_by};
ghost use Rattle.lane.specs.PrivateCalls.{small_sum};

use lane_rules::{Outcome, Sums};

// The sums at lock, and of a fresh record.
pub(crate) fn no_sums() -> Sums
    ensures { result ≡ no_sums }
{
    Sums {
        sum: 0,
        lowest: 0,
        highest: 0,
    }
}

// The sums where a frame's end has this sum.
fn with_sum(sums: Sums, sum: i32) -> Sums
    ensures { result ≡ with_sum sums sum }
{
    Sums {
        sum,
        lowest: sums.lowest.min(sum),
        highest: sums.highest.max(sum),
    }
}

// The sums with one more frame; the sum is held at the limits.
fn with_frame(sums: Sums, disparity: i32) -> Sums
    ensures { result ≡ with_frame sums disparity }
{
    with_sum(sums, sums.sum.saturating_add(disparity))
}

// The same where the sum is not at a limit.
pub(crate) fn with_frame_inside(sums: Sums, disparity: i32) -> Sums
    requires { within largest_sum (sums.sum +ℤ disparity) ≡ true }
    ensures { result ≡ with_frame sums disparity }
{
    with_sum(sums, sums.sum + disparity)
}

// Whether a sum is so small that the longest run of sound frames does not take it to a limit.
pub(crate) fn is_small(sum: i32) -> bool
    ensures { result ≡ within small_sum sum }
{
    -1073741824 <= sum && sum <= 1073741824
}

// The sums after an outcome.
#[tactic(auto, unfolding(lane_rules::specs::Sums::sums_by))]
pub(crate) fn summed(sums: Sums, outcome: Outcome) -> Sums
    requires { OutcomeIn outcome }
    ensures { result ≡ sums_by sums outcome }
{
    match outcome {
        Outcome::Nothing => sums,
        Outcome::Found => no_sums(),
        // One arm for the three has no proof yet: an i32 that a pattern of several variants binds is not proved to be what it was.
        Outcome::Sample { disparity, .. } => with_frame(sums, disparity),
        Outcome::Gap { disparity } => with_frame(sums, disparity),
        Outcome::Loss { disparity } => with_frame(sums, disparity),
    }
}
