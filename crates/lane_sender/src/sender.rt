// The sender's record: starting it, and the SYNC call.
ghost use Rattle.std.specs.Prelude.{◌≡◌, true, false, ◌&&◌, leb, Ok, Err, MatchResult};
ghost use Rattle.refusal.specs.declared.Refusal.TheVariants as Refusal;
ghost use Rattle.lane_rules.specs.Sender.{alignment_permitted, sequence_frames, sender_admitted, start_with_answer, start_answer, synced, sync_answer};

use lane_rules::Sender;
use refusal::Refusal;

// The smallest and the largest number of alignment frames in a sequence, and the number of frames of sample 0 after them.
const SMALLEST_ALIGNMENT: u32 = 12;

const LARGEST_ALIGNMENT: u32 = 32;

pub(crate) const PROVING_FRAMES: u32 = 32;

// Whether a sequence may have so many alignment frames.
fn alignment_permitted(alignment: u32) -> bool
    ensures { result ≡ alignment_permitted alignment }
{
    (alignment % 2 == 0) & (SMALLEST_ALIGNMENT <= alignment) & (alignment <= LARGEST_ALIGNMENT)
}

// Whether the record's number of alignment frames is permitted, and its position in the sequence or at its end.
fn position_admitted(tx: Sender) -> bool
    ensures { result ≡ (alignment_permitted tx.alignment && leb tx.position (sequence_frames tx)) }
{
    alignment_permitted(tx.alignment) && tx.position <= tx.alignment + PROVING_FRAMES
}

// Whether every part of the record is in its range.
fn sender_admitted(tx: Sender) -> bool
    ensures { result ≡ sender_admitted tx }
{
    frame::check_seed(tx.seed).is_ok()
        && (frame::is_state(tx.state)
            && (tx.clock <= 1 && (frame::is_running_disparity(tx.r) && position_admitted(tx))))
}

// A record of which every part is in its range.
#[derive(Clone, Copy)]
pub(crate) struct Admitted {
    pub(crate) tx: Sender,
    ghost admitted: { sender_admitted tx ≡ true },
}

// Refusal 3: the record.
impl TryFrom<Sender> for Admitted {
    type Error = Refusal;

    ghost try_from_gives = { λ tx r. MatchResult r (λ a. (a.tx ≡ tx) × (sender_admitted tx ≡ true)) (λ e. (e ≡ Refusal.Record) × (sender_admitted tx ≡ false)) };

    fn try_from(tx: Sender) -> Result<Admitted, Refusal> {
        if sender_admitted(tx) {
            Ok(Admitted { tx })
        } else {
            Err(Refusal::Record)
        }
    }
}

// A fresh record with a number of alignment frames, even and 12 to 32. Refusals: 1 for a seed that is no state; 2 for one with the
// word of an alignment frame; then 19 for the number.
pub fn start_with(seed: u32, alignment: u32) -> Result<Sender, Refusal>
    ensures { result ≡ start_with_answer seed alignment }
{
    frame::check_seed(seed)?;
    if !alignment_permitted(alignment) {
        return Err(Refusal::Alignment);
    }
    Ok(Sender {
        seed,
        state: seed,
        clock: 0,
        r: 0,
        position: 0,
        alignment,
    })
}

// A fresh record with 32 alignment frames. Refusals 1 and 2. Kept beside `start_with`, since C has a call for each.
pub fn start(seed: u32) -> Result<Sender, Refusal>
    ensures { result ≡ start_answer seed }
{
    start_with(seed, LARGEST_ALIGNMENT)
}

// SYNC by value: the state becomes the seed, clock bit and position become 0; the other parts remain. Refusal 3: the record.
pub fn sync_by_value(tx: Sender) -> Result<Sender, Refusal>
    ensures { result ≡ sync_answer tx }
{
    let tx = Admitted::try_from(tx)?.tx;
    Ok(Sender {
        state: tx.seed,
        clock: 0,
        position: 0,
        ..tx
    })
}

// The SYNC call on a lent record, which a refusal leaves as it was.
pub fn sync(tx: &mut Sender) -> Result<(), Refusal>
    ensures { MatchResult (sync_answer tx.old) (λ t. (result ≡ Ok tt) × (tx.new ≡ t)) (λ refusal. (result ≡ Err refusal) × (tx.new ≡ tx.old)) }
{
    *tx = sync_by_value(*tx)?;
    Ok(())
}
