// The lifting steps of a transform, forward and back, in place, as passes of the kernel over planes.
#![tactic(auto)]

pub mod passes;
mod rows;
pub mod steps;
