// The C interface: each call is the call of the same name of the crate that it comes from, and says so in its contract. A slice
// crosses as a pointer and a number of elements; a struct crosses by value, and the record that SYNC lends as a pointer.
#![tactic(auto)]

mod flat;
mod frames;
mod receiver;
mod sender;
mod strips;

pub use flat::{FlatMode, FlatReceiver};
pub use frames::{
    FlatBuilt, FlatSampled, FlatStepped, ows_build, ows_check_seed, ows_disparity, ows_lane_seed,
    ows_next, ows_read, ows_read_sample,
};
pub use receiver::{FlatFed, FlatSynced, ows_feed, ows_feed_frames, ows_fresh, ows_receiver_sync};
pub use sender::{FlatSent, FlatStarted, ows_send, ows_start, ows_start_with, ows_sync};
pub use strips::{
    FlatConverted, FlatReading, FlatWritten, ows_check_strip, ows_expand_strip, ows_read_strip,
    ows_shorten_strip, ows_write_short_strip, ows_write_strip,
};
