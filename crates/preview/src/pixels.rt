// Samples as floats and back, and the comparison of pixels.
ghost use Rattle.std.specs.Prelude.{◌≡◌, ◌≤◌, ℤ, pos, ◌*ℤ◌};
ghost use Rattle.integers.specs.Parts.{In};
ghost use Rattle.preview.specs.Quarters.{just, four_times, pixel_quarters};
ghost use Rattle.preview.specs.Parts.{Bits16, fourfold, same_floats};
ghost use Rattle.preview.specs.Calls.{are_samples};

use crate::{Pixel, Rgb};
use integers::is_within;

impl Rgb {
    // Whether these are samples of a depth.
    pub(crate) fn is_of(self, depth: u32) -> bool
        requires { depth ≤ 16 }
        ensures { result ≡ are_samples depth self }
    {
        let m = (1u32 << depth) - 1;
        is_within(self.r, 0, m) & (is_within(self.g, 0, m) & is_within(self.b, 0, m))
    }

    pub(crate) fn floats(self) -> Pixel
        requires { Bits16 self }
        ensures { pixel_quarters result ≡ just (fourfold self) }
    {
        Pixel {
            v1: self.r as f64,
            v2: self.g as f64,
            v3: self.b as f64,
        }
    }
}

// The sample that a float is, where it is one of 16 bits; some number for every other float. To 2^52 a sample adds its bits. `x == x`
// is `!x.is_nan()`; with that call a pixel back takes a twentieth longer.
fn sample_of(x: f64) -> i32
    ensures { (z : ℤ) → In 0 65535 z → four_times x ≡ just (pos 4 *ℤ z) → result ≡ z }
{
    if x == x {
        ((x + 4503599627370496.0).to_bits() % 65536) as i32
    } else {
        0
    }
}

impl Pixel {
    // The samples that the floats are, where they are some.
    pub(crate) fn samples(self) -> Rgb
        ensures { (s : Rgb) → Bits16 s → pixel_quarters self ≡ just (fourfold s) → result ≡ s }
    {
        Rgb {
            r: sample_of(self.v1),
            g: sample_of(self.v2),
            b: sample_of(self.v3),
        }
    }

    // As numbers, as `self == y` does: both zeros are the same, and what is not a number is the same as nothing. The three comparisons
    // are counted, in one branch: `==` takes six, and twice the time where a pixel is refused.
    pub(crate) fn equals(self, y: Pixel) -> bool
        ensures { result ≡ same_floats self y }
    {
        (self.v1 == y.v1) as u32 + (self.v2 == y.v2) as u32 + (self.v3 == y.v3) as u32 == 3
    }
}
