// Preview pixels for C: the space as a number, 1 for HVSCT and 2 for YCoCg, and 0 beside a refusal.
ghost use Rattle.std.specs.Prelude.{◌≡◌};
ghost use Rattle.stage.specs.Answers.{reply_of};
ghost use Rattle.preview.specs.Quarters.{pixel_quarters};
ghost use Rattle.preview.specs.Spaces.{HVSCT, YCoCg, rgb_of};
ghost use Rattle.preview.specs.Calls.{preview_reply, preview_call, back_call};
ghost use Rattle.rulantip.specs.Previews.{pixel_of, preview_read, preview_returned, handed_in, rgb_returned};

use preview::{Pixel, Preview, Rgb};
use stage::Refusal;

// C has no results: a refusal's number, or 0, stands beside the values.
#[repr(C)]
#[derive(Clone, Copy)]
pub struct RulantipPreview {
    pub refusal: u32,
    pub space: u32,
    pub v1: f64,
    pub v2: f64,
    pub v3: f64,
}

impl From<Preview> for RulantipPreview {
    ghost from_gives = { λ v s. preview_read s ≡ preview_returned (preview_reply v) };

    fn from(v: Preview) -> RulantipPreview {
        match v {
            Preview::Hvsct(x) => RulantipPreview {
                refusal: 0,
                space: 1,
                v1: x.v1,
                v2: x.v2,
                v3: x.v3,
            },
            Preview::Ycocg(x) => RulantipPreview {
                refusal: 0,
                space: 2,
                v1: x.v1,
                v2: x.v2,
                v3: x.v3,
            },
            Preview::Refused(refusal) => RulantipPreview {
                refusal,
                space: 0,
                v1: 0.0,
                v2: 0.0,
                v3: 0.0,
            },
        }
    }
}

#[unsafe(no_mangle)]
pub extern "C" fn rulantip_hvsct(depth: u32, r: i32, g: i32, b: i32) -> RulantipPreview
    ensures { preview_read result ≡ preview_returned (preview_call HVSCT depth (rgb_of r g b)) }
{
    RulantipPreview::from(preview::hvsct(depth, Rgb { r, g, b }))
}

#[unsafe(no_mangle)]
pub extern "C" fn rulantip_ycocg(depth: u32, r: i32, g: i32, b: i32) -> RulantipPreview
    ensures { preview_read result ≡ preview_returned (preview_call YCoCg depth (rgb_of r g b)) }
{
    RulantipPreview::from(preview::ycocg(depth, Rgb { r, g, b }))
}

#[repr(C)]
#[derive(Clone, Copy)]
pub struct RulantipRgb {
    pub refusal: u32,
    pub r: i32,
    pub g: i32,
    pub b: i32,
}

impl From<Result<Rgb, Refusal>> for RulantipRgb {
    ghost from_gives = { λ r s. s ≡ rgb_returned (reply_of r) };

    fn from(answer: Result<Rgb, Refusal>) -> RulantipRgb {
        match answer {
            Ok(s) => RulantipRgb {
                refusal: 0,
                r: s.r,
                g: s.g,
                b: s.b,
            },
            Err(refusal) => RulantipRgb {
                refusal: refusal.number(),
                r: 0,
                g: 0,
                b: 0,
            },
        }
    }
}

// C's number of a space. No space has another number: nothing goes back from there.
fn handed_in(space: u32, x: Pixel) -> Preview
    ensures { preview_reply result ≡ handed_in space (pixel_quarters x) }
{
    match space {
        1 => Preview::Hvsct(x),
        2 => Preview::Ycocg(x),
        _ => Preview::Refused(Refusal::Preview.number()),
    }
}

#[unsafe(no_mangle)]
pub extern "C" fn rulantip_preview_back(
    depth: u32,
    space: u32,
    v1: f64,
    v2: f64,
    v3: f64,
) -> RulantipRgb
    ensures { result ≡ rgb_returned (back_call depth (handed_in space (pixel_quarters (pixel_of v1 v2 v3)))) }
{
    RulantipRgb::from(preview::go_back(depth, handed_in(space, Pixel { v1, v2, v3 })))
}
