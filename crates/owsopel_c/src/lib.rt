// The archive for C: each call exports the call of its name of `owsopel`, under the same contract. A slice crosses as a pointer and a
// number of elements; a struct crosses by value, and the record that SYNC lends as a pointer.
// Kept apart from `owsopel`, whose calls it names again: only a static library exports, and no crate can stand on one (decision 107).
#![tactic(auto)]

mod frames;
mod receiver;
mod sender;
mod strips;
