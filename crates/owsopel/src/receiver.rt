// The receiver for C. Kept for C: an answer is a struct with the refusal's number, since a `Result` can't cross.
ghost use Rattle.std.specs.Prelude.{◌≡◌, length};
ghost use Rattle.lane_rules.specs.Receiver.{fresh_receiver};
ghost use Rattle.owsopel.specs.Flat.{flat_receiver};
ghost use Rattle.owsopel.specs.Answers.{synced_in, flat_synced, flat_answer, flat_fed, flat_slots};

use crate::flat::FlatReceiver;
use lane::{Fed, Receiver};
use refusal::Refusal;

// The answer of SYNC: the refusal, 0 where taken, and the record.
#[repr(C)]
#[derive(Clone, Copy)]
pub struct FlatSynced {
    pub refusal: u8,
    pub receiver: FlatReceiver,
}

// The answer of feeding: the refusal, 0 where taken, the record, and the bytes and slots used.
#[repr(C)]
#[derive(Clone, Copy)]
pub struct FlatFed {
    pub refusal: u8,
    pub receiver: FlatReceiver,
    pub bytes: usize,
    pub slots: usize,
}

// A fresh receiver.
pub fn ows_fresh() -> FlatReceiver
    ensures { result ≡ flat_receiver fresh_receiver }
{
    FlatReceiver::from(lane::fresh())
}

// The record after SYNC. Refused: a flat record that is none, or one that is not admitted.
fn synced(rx: FlatReceiver) -> Result<Receiver, Refusal>
    ensures { result ≡ synced_in rx }
{
    lane::receiver_sync(Receiver::try_from(rx)?)
}

// The SYNC call: enters Hunt and leaves the totals and the sums.
pub fn ows_receiver_sync(rx: FlatReceiver) -> FlatSynced
    ensures { result ≡ flat_synced rx }
{
    match synced(rx) {
        Ok(receiver) => FlatSynced {
            refusal: 0,
            receiver: FlatReceiver::from(receiver),
        },
        Err(refusal) => FlatSynced {
            refusal: refusal.number(),
            receiver: rx,
        },
    }
}

// An answer of feeding, for C; where it is refused the record comes back.
fn flat_answer(answer: Result<Fed, Refusal>, rx: FlatReceiver) -> FlatFed
    ensures { result ≡ flat_answer answer rx }
{
    match answer {
        Ok(fed) => FlatFed {
            refusal: 0,
            receiver: FlatReceiver::from(fed.receiver),
            bytes: fed.bytes,
            slots: fed.slots,
        },
        Err(refusal) => FlatFed {
            refusal: refusal.number(),
            receiver: rx,
            bytes: 0,
            slots: 0,
        },
    }
}

// Feeds bytes of the line into the receiver, and items into the slots.
pub fn ows_feed(rx: FlatReceiver, bytes: &[u8], slots: &mut [u16]) -> FlatFed
    ensures value { result ≡ flat_fed rx bytes.now (length slots.old) }
    ensures slots_after { slots.new ≡ flat_slots rx bytes.now slots.old }
{
    match Receiver::try_from(rx) {
        Ok(receiver) => flat_answer(lane::feed(receiver, bytes, slots), rx),
        Err(refusal) => flat_answer(Err(refusal), rx),
    }
}

// The same, by whole frames. Kept beside `ows_feed`, since C has a call for each.
pub fn ows_feed_frames(rx: FlatReceiver, bytes: &[u8], slots: &mut [u16]) -> FlatFed
    ensures value { result ≡ flat_fed rx bytes.now (length slots.old) }
    ensures slots_after { slots.new ≡ flat_slots rx bytes.now slots.old }
{
    match Receiver::try_from(rx) {
        Ok(receiver) => flat_answer(lane::feed_frames(receiver, bytes, slots), rx),
        Err(refusal) => flat_answer(Err(refusal), rx),
    }
}
