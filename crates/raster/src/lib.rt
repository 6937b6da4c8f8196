// The samples of a raster, of one byte each or of two, the more significant first: read to a plane, and written from one.
#![tactic(auto)]

mod reading;
mod samples;
mod writing;

pub use reading::{all_up_to, fill, sample_bytes};
pub use samples::pair;
pub use writing::put_samples;
