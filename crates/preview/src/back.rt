// From a preview pixel of either space back to its samples.
ghost use Rattle.std.specs.Prelude.{◌≡◌};
ghost use Rattle.stage.specs.Answers.{reply_of};
ghost use Rattle.preview.specs.Calls.{preview_reply, has, back_call};
ghost use Rattle.preview.specs.Parts.{Bits16, Finds};

use crate::matrices::{Hvsct, Lossy, Ycocg};
use crate::{Preview, Rgb};
use stage::{Refusal, is_between, require};

// By cases in each function: with one generic way back, run for each space, a pixel back from HVSCT takes a fifth longer.
impl Preview {
    // The samples that a preview can only be of: where there are none, some numbers.
    fn candidate(self) -> Rgb
        ensures { Finds (preview_reply self) result }
    {
        match self {
            Preview::Hvsct(x) => Hvsct::inverse(x).samples(),
            Preview::Ycocg(x) => Ycocg::inverse(x).samples(),
            Preview::Refused(_) => Rgb { r: 0, g: 0, b: 0 },
        }
    }

    // Whether samples have these floats: forward again, and compared. A sum of large floats can hide a difference by rounding.
    fn has(self, s: Rgb) -> bool
        requires { Bits16 s }
        ensures { result ≡ has (preview_reply self) s }
    {
        match self {
            Preview::Hvsct(x) => x.equals(Hvsct::matrix(s.floats())),
            Preview::Ycocg(x) => x.equals(Ycocg::matrix(s.floats())),
            Preview::Refused(_) => false,
        }
    }
}

pub fn go_back(depth: u32, v: Preview) -> Result<Rgb, Refusal>
    ensures { reply_of result ≡ back_call depth (preview_reply v) }
{
    require(is_between(2, 16, depth), Refusal::Depth)?;
    let s = v.candidate();
    require(s.is_of(depth), Refusal::Preview)?;
    require(v.has(s), Refusal::Preview)?;
    Ok(s)
}
