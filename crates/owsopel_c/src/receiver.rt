// The receiver for C.
ghost use Rattle.std.specs.Prelude.{◌≡◌, length};
ghost use Rattle.lane_rules.specs.Receiver.{fresh_receiver};
ghost use Rattle.owsopel.specs.Flat.{flat_receiver};
ghost use Rattle.owsopel.specs.Answers.{flat_synced, flat_fed, flat_slots};

use owsopel::{FlatFed, FlatReceiver, FlatSynced};

// A fresh receiver.
#[unsafe(no_mangle)]
pub extern "C" fn ows_fresh() -> FlatReceiver
    ensures { result ≡ flat_receiver fresh_receiver }
{
    owsopel::ows_fresh()
}

// The SYNC call: enters Hunt and leaves the totals and the sums.
#[unsafe(no_mangle)]
pub extern "C" fn ows_receiver_sync(rx: FlatReceiver) -> FlatSynced
    ensures { result ≡ flat_synced rx }
{
    owsopel::ows_receiver_sync(rx)
}

// Feeds bytes of the line into the receiver, and items into the slots.
#[unsafe(no_mangle)]
pub extern "C" fn ows_feed(rx: FlatReceiver, bytes: &[u8], slots: &mut [u16]) -> FlatFed
    ensures value { result ≡ flat_fed rx bytes.now (length slots.old) }
    ensures slots_after { slots.new ≡ flat_slots rx bytes.now slots.old }
{
    owsopel::ows_feed(rx, bytes, slots)
}

// The same, by whole frames.
#[unsafe(no_mangle)]
pub extern "C" fn ows_feed_frames(rx: FlatReceiver, bytes: &[u8], slots: &mut [u16]) -> FlatFed
    ensures value { result ≡ flat_fed rx bytes.now (length slots.old) }
    ensures slots_after { slots.new ≡ flat_slots rx bytes.now slots.old }
{
    owsopel::ows_feed_frames(rx, bytes, slots)
}
