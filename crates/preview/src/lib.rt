// Preview pixels: three samples as three floats of HVSCT or YCoCg, without rounding, and back from either space.
#![tactic(auto)]

mod back;
mod forward;
mod matrices;
mod pixels;

pub use back::go_back;
pub use forward::{hvsct, ycocg};

// Three floats: R, G and B, or the values of a space in the order of its matrix.
#[derive(Clone, Copy, Debug, PartialEq)]
pub struct Pixel {
    pub v1: f64,
    pub v2: f64,
    pub v3: f64,
}

#[derive(Clone, Copy, Debug, PartialEq, Eq)]
pub struct Rgb {
    pub r: i32,
    pub g: i32,
    pub b: i32,
}

// A pixel of one of the spaces, or a refusal: the scope paper names these three cases, and the inverse takes any of them,
// whatever number a refusal has: with the enum for it, it would take fewer.
#[derive(Clone, Copy, Debug, PartialEq)]
pub enum Preview {
    Hvsct(Pixel),
    Ycocg(Pixel),
    Refused(u32),
}
