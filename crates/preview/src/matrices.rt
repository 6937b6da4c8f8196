// The matrices of both spaces and their inverses. Entries are halves and quarters, 1 and 2, so no float rounds on the way from 16-bit
// samples to values, nor on the way back.
ghost use Rattle.std.specs.Prelude.{◌≡◌};
ghost use Rattle.stage.specs.Answers.{done};
ghost use Rattle.preview.specs.Quarters.{pixel_quarters};
ghost use Rattle.preview.specs.Parts.{Leads, fourfold};
ghost use Rattle.preview.specs.Spaces.{Space, HVSCT, YCoCg, quarters};
ghost use Rattle.preview.specs.Calls.{shown, preview_reply};

use crate::{Pixel, Preview};

// A lossy space: what its matrix makes of R, G and B, the inverse of that, and values as a preview of the space.
pub(crate) trait Lossy {
    ghost space: { Space };

    fn matrix(x: Pixel) -> Pixel
        ensures { Leads fourfold (quarters space) x result };

    fn inverse(x: Pixel) -> Pixel
        ensures { Leads (quarters space) fourfold x result };

    fn preview(x: Pixel) -> Preview
        ensures { preview_reply result ≡ done (shown space (pixel_quarters x)) };
}

pub(crate) struct Hvsct;

impl Lossy for Hvsct {
    ghost space = { HVSCT };

    fn matrix(x: Pixel) -> Pixel {
        Pixel {
            v1: x.v1 * 0.5 + x.v2 * 0.5,
            v2: x.v1 * 0.5 - x.v2 * 0.5,
            v3: x.v3 * 0.5 - x.v1 * 0.25 - x.v2 * 0.25,
        }
    }

    fn inverse(x: Pixel) -> Pixel {
        Pixel {
            v1: x.v1 + x.v2,
            v2: x.v1 - x.v2,
            v3: x.v1 + x.v3 + x.v3,
        }
    }

    fn preview(x: Pixel) -> Preview {
        Preview::Hvsct(x)
    }
}

pub(crate) struct Ycocg;

impl Lossy for Ycocg {
    ghost space = { YCoCg };

    fn matrix(x: Pixel) -> Pixel {
        Pixel {
            v1: x.v1 * 0.25 + x.v2 * 0.5 + x.v3 * 0.25,
            v2: x.v1 * 0.5 - x.v3 * 0.5,
            v3: x.v2 * 0.5 - x.v1 * 0.25 - x.v3 * 0.25,
        }
    }

    fn inverse(x: Pixel) -> Pixel {
        Pixel {
            v1: x.v1 + x.v2 - x.v3,
            v2: x.v1 + x.v3,
            v3: x.v1 - x.v2 - x.v3,
        }
    }

    fn preview(x: Pixel) -> Preview {
        Preview::Ycocg(x)
    }
}
