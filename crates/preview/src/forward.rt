// From samples to a preview pixel of either space.
ghost use Rattle.std.specs.Prelude.{◌≡◌};
ghost use Rattle.stage.specs.Answers.{number, refusal, reply_of};
ghost use Rattle.preview.specs.Spaces.{HVSCT, YCoCg};
ghost use Rattle.preview.specs.Calls.{preview_reply, preview_tests, preview_call};

use crate::matrices::{Hvsct, Lossy, Ycocg};
use crate::{Preview, Rgb};
use stage::{Refusal, is_between, require};

fn check(depth: u32, s: Rgb) -> Result<(), Refusal>
    ensures { number (reply_of result) ≡ refusal (preview_tests depth s) }
{
    require(is_between(2, 16, depth), Refusal::Depth)?;
    require(s.is_of(depth), Refusal::Sample)
}

fn show<S: Lossy>(depth: u32, s: Rgb) -> Preview
    ensures { preview_reply result ≡ preview_call S.space depth s }
{
    match check(depth, s) {
        Ok(()) => S::preview(S::matrix(s.floats())),
        Err(e) => Preview::Refused(e.number()),
    }
}

pub fn hvsct(depth: u32, s: Rgb) -> Preview
    ensures { preview_reply result ≡ preview_call HVSCT depth s }
{
    show::<Hvsct>(depth, s)
}

pub fn ycocg(depth: u32, s: Rgb) -> Preview
    ensures { preview_reply result ≡ preview_call YCoCg depth s }
{
    show::<Ycocg>(depth, s)
}
