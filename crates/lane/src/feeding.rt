// Feeding bit by bit: bytes of the line in, items out.
ghost use Rattle.std.specs.Prelude.{◌≡◌, true, [], ◌∷◌, ◌+◌, ◌≤◌, ◌<◌, length};
ghost use Rattle.std.proofs.lemmas.List.Edits.{sets};
ghost use Rattle.lane_rules.specs.Outcomes.{OutcomeIn};
ghost use Rattle.lane_rules.specs.Receiver.{mode_admitted};
ghost use Rattle.lane_rules.specs.Feeding.{counted, item_of, feed_answer, fed_by, slots_after};

use crate::summing::summed;
use lane_modes::{Admitted, mode_admitted};
use lane_rules::{Fed, Mode, Outcome, Receiver};
use refusal::Refusal;

// The item of a gap.
const GAP: u16 = 16384;

// The record in another mode, with an outcome counted. Totals stay at their largest value once there.
pub(crate) fn count(rx: Receiver, mode: Mode, outcome: Outcome) -> Receiver
    requires { OutcomeIn outcome }
    ensures { result ≡ counted rx mode (outcome ∷ []) }
{
    let after = Receiver {
        mode,
        sums: summed(rx.sums, outcome),
        ..rx
    };
    match outcome {
        Outcome::Nothing | Outcome::Found => after,
        Outcome::Sample { .. } => Receiver {
            samples: rx.samples.saturating_add(1),
            ..after
        },
        Outcome::Gap { .. } => Receiver {
            gaps: rx.gaps.saturating_add(1),
            ..after
        },
        Outcome::Loss { .. } => Receiver {
            gaps: rx.gaps.saturating_add(1),
            losses: rx.losses.saturating_add(1),
            ..after
        },
    }
}

// Puts the item of an outcome into the next slot, if it has one; gives the slots then used.
pub(crate) fn put(slots: &mut [u16], used: usize, outcome: Outcome) -> usize
    requires { used + length (item_of outcome) ≤ length slots.old }
    ensures number { result ≡ used + length (item_of outcome) }
    ensures content { slots.new ≡ sets slots.old used (item_of outcome) }
{
    match outcome {
        Outcome::Nothing | Outcome::Found => used,
        Outcome::Sample { sample, .. } => {
            slots[used] = sample;
            used + 1
        }
        Outcome::Gap { .. } | Outcome::Loss { .. } => {
            slots[used] = GAP;
            used + 1
        }
    }
}

// Feeds bytes to an admitted record, with a slot free for the first byte. A byte is used whole: the slots are looked at after its last
// bit, before the next byte.
// The loop over a byte's bits is kept as one by a count that tests at its end: `for` over their places takes 1.2 times as long on a locked
// line, `for` with the bits shifted out one by one 1.6 times, and `while` 1.4 times.
fn feed_bits(rx: Receiver, bytes: &[u8], slots: &mut [u16]) -> Fed
    requires mode_value { mode_admitted rx.mode ≡ true }
    requires slots_nonzero { 0 < length slots.old }
    ensures answer { result ≡ fed_by rx bytes.now (length slots.old) }
    ensures items { slots.new ≡ slots_after rx bytes.now slots.old }
{
    let mut receiver = rx;
    let mut taken: usize = 0;
    let mut used: usize = 0;
    'bytes: for &byte in bytes {
        let mut rest = byte as u32;
        let mut left: u32 = 8;
        taken += 1;
        loop {
            let judged = Admitted {
                mode: receiver.mode,
            }
            .step(rest % 2);
            used = put(slots, used, judged.outcome);
            receiver = count(receiver, judged.mode, judged.outcome);
            rest /= 2;
            left -= 1;
            if left == 0 {
                if slots.len() <= used {
                    break 'bytes;
                }
                continue 'bytes;
            }
        }
    }
    Fed {
        receiver,
        bytes: taken,
        slots: used,
    }
}

// Feeds bytes, the lowest bit of each first; it stops before a byte when no slot is free. Refusal 3: the record.
#[tactic(auto, unfolding(lane_rules::specs::Feeding::feed_answer, lane_rules::specs::Feeding::slots_after))]
pub fn feed(rx: Receiver, bytes: &[u8], slots: &mut [u16]) -> Result<Fed, Refusal>
    ensures answer { result ≡ feed_answer rx bytes.now (length slots.old) }
    ensures items { slots.new ≡ slots_after rx bytes.now slots.old }
{
    if !mode_admitted(rx.mode) {
        return Err(Refusal::Record);
    }
    if slots.len() == 0 {
        return Ok(Fed {
            receiver: rx,
            bytes: 0,
            slots: 0,
        });
    }
    Ok(feed_bits(rx, bytes, slots))
}
