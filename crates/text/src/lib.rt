// Text in lent buffers: bytes, words and decimal numbers written one behind the other, and decimal numbers read at a place.
#![tactic(auto)]

mod reading;
mod writing;

pub use reading::{Number, read_number};
pub use writing::{Writer, digit_count};
