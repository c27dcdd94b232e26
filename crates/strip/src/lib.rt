// Stored strips (document 01, Strips; document 02, Q-8): items packed bit by bit, most significant first, in one of two forms. Reading,
// checking and converting stand here, writing in `strip_writer`, whose calls are passed on. What each call gives is defined in
// `strip_rules`, whose types are passed on too. No public call has a precondition: what it can't take it refuses by its document's
// number, and then it writes nothing.
#![tactic(auto)]

mod converting;
mod pieces;
mod reading;
mod walking;

pub use converting::convert_strip;
pub use reading::{check_strip, read_strip};
pub use strip_rules::{Converted, Form, Reading};
pub use strip_writer::{write_short_strip, write_strip};
