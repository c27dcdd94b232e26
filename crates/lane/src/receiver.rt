// The receiver's record: a mode, three totals and three sums; a fresh one, and the SYNC call.
ghost use Rattle.std.specs.Prelude.{◌≡◌};
ghost use Rattle.lane_rules.specs.Receiver.{fresh_receiver, receiver_sync_answer};

use crate::summing::no_sums;
use lane_modes::mode_admitted;
use lane_rules::{Mode, Receiver};
use refusal::Refusal;

// A fresh record: Hunt, totals and sums 0.
#[tactic(auto, unfolding(lane_rules::specs::Receiver::fresh_receiver))]
pub fn fresh() -> Receiver
    ensures { result ≡ fresh_receiver }
{
    Receiver {
        mode: Mode::HUNTING,
        samples: 0,
        gaps: 0,
        losses: 0,
        sums: no_sums(),
    }
}

// The SYNC call: enters Hunt and leaves the totals and the sums. Refusal 3: the record.
#[tactic(auto, unfolding(lane_rules::specs::Receiver::receiver_sync_answer))]
pub fn receiver_sync(rx: Receiver) -> Result<Receiver, Refusal>
    ensures { result ≡ receiver_sync_answer rx }
{
    if !mode_admitted(rx.mode) {
        return Err(Refusal::Record);
    }
    Ok(Receiver {
        mode: Mode::HUNTING,
        ..rx
    })
}
