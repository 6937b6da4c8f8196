// Finished planes as graymaps, P5 files: written to a lent buffer, and read back.
#![tactic(auto)]

mod reading;
mod refusals;
mod writing;

pub use reading::read;
pub use writing::write;
