// The sender for C.
ghost use Rattle.std.specs.Prelude.{◌≡◌, length};
ghost use Rattle.refusal.specs.Refusal.{told_number};
ghost use Rattle.lane_rules.specs.Sender.{start_with_answer, start_answer, sync_answer, sender_synced};
ghost use Rattle.lane_rules.specs.Sending.{send_answer, buffer_after};
ghost use Rattle.owsopel.specs.Answers.{flat_started, flat_sent};

use lane::Sender;
use owsopel::{FlatSent, FlatStarted};

// Starts a sender with 32 alignment frames.
#[unsafe(no_mangle)]
pub extern "C" fn ows_start(seed: u32) -> FlatStarted
    ensures { result ≡ flat_started (start_answer seed) }
{
    owsopel::ows_start(seed)
}

// Starts a sender with a number of alignment frames.
#[unsafe(no_mangle)]
pub extern "C" fn ows_start_with(seed: u32, alignment: u32) -> FlatStarted
    ensures { result ≡ flat_started (start_with_answer seed alignment) }
{
    owsopel::ows_start_with(seed, alignment)
}

// The SYNC call on a lent record.
#[unsafe(no_mangle)]
pub extern "C" fn ows_sync(tx: &mut Sender) -> u8
    ensures { (result ≡ told_number (sync_answer tx.old)) × (tx.new ≡ sender_synced tx.old) }
{
    owsopel::ows_sync(tx)
}

// Sends the rest of the sequence, then the samples, into the buffer.
#[unsafe(no_mangle)]
pub extern "C" fn ows_send(tx: Sender, samples: &[u16], buf: &mut [u8]) -> FlatSent
    ensures value { result ≡ flat_sent tx (send_answer tx samples.now (length buf.old)) }
    ensures buf_after { buf.new ≡ buffer_after tx samples.now buf.old }
{
    owsopel::ows_send(tx, samples, buf)
}
