// The sender for C. Kept for C: an answer is a struct with the refusal's number, since a `Result` can't cross.
ghost use Rattle.std.specs.Prelude.{◌≡◌, length};
ghost use Rattle.refusal.specs.Refusal.{told_number};
ghost use Rattle.lane_rules.specs.Sender.{start_with_answer, start_answer, sync_answer, sender_synced};
ghost use Rattle.lane_rules.specs.Sending.{send_answer, buffer_after};
ghost use Rattle.owsopel.specs.Answers.{flat_started, stop_number, flat_sent};

use lane::{Sender, Stop};
use refusal::Refusal;

// The answer of starting: the refusal, 0 where taken, and the record, zeros where refused.
#[repr(C)]
#[derive(Clone, Copy)]
pub struct FlatStarted {
    pub refusal: u8,
    pub sender: Sender,
}

// The answer of sending: the refusal, how it stopped (0 refused, 1 all sent, 2 out of space), the record, samples taken and bytes
// written.
#[repr(C)]
#[derive(Clone, Copy)]
pub struct FlatSent {
    pub refusal: u8,
    pub stop: u8,
    pub sender: Sender,
    pub taken: usize,
    pub written: usize,
}

impl From<Result<Sender, Refusal>> for FlatStarted {
    ghost from_gives = { λ started flat. flat ≡ flat_started started };

    fn from(started: Result<Sender, Refusal>) -> FlatStarted {
        match started {
            Ok(sender) => FlatStarted { refusal: 0, sender },
            Err(refusal) => FlatStarted {
                refusal: refusal.number(),
                sender: Sender {
                    seed: 0,
                    state: 0,
                    clock: 0,
                    r: 0,
                    position: 0,
                    alignment: 0,
                },
            },
        }
    }
}

// Starts a sender with 32 alignment frames.
pub fn ows_start(seed: u32) -> FlatStarted
    ensures { result ≡ flat_started (start_answer seed) }
{
    FlatStarted::from(lane::start(seed))
}

// Starts a sender with a number of alignment frames.
pub fn ows_start_with(seed: u32, alignment: u32) -> FlatStarted
    ensures { result ≡ flat_started (start_with_answer seed alignment) }
{
    FlatStarted::from(lane::start_with(seed, alignment))
}

// The SYNC call on a lent record.
pub fn ows_sync(tx: &mut Sender) -> u8
    ensures { (result ≡ told_number (sync_answer tx.old)) × (tx.new ≡ sender_synced tx.old) }
{
    match lane::sync(tx) {
        Ok(()) => 0,
        Err(refusal) => refusal.number(),
    }
}

// The number of a way to stop. Kept as a function: neither type of a `From` would be of this crate.
fn stop_number(stop: Stop) -> u8
    ensures { result ≡ stop_number stop }
{
    match stop {
        Stop::AllSent => 1,
        Stop::OutOfSpace => 2,
    }
}

// Sends the rest of the sequence, then the samples, into the buffer.
pub fn ows_send(tx: Sender, samples: &[u16], buf: &mut [u8]) -> FlatSent
    ensures value { result ≡ flat_sent tx (send_answer tx samples.now (length buf.old)) }
    ensures buf_after { buf.new ≡ buffer_after tx samples.now buf.old }
{
    match lane::send(tx, samples, buf) {
        Ok(sent) => FlatSent {
            refusal: 0,
            stop: stop_number(sent.stop),
            sender: sent.sender,
            taken: sent.taken,
            written: sent.written,
        },
        Err(refusal) => FlatSent {
            refusal: refusal.number(),
            stop: 0,
            sender: tx,
            taken: 0,
            written: 0,
        },
    }
}
