// The library as C, C++ and Rust callers see it; include/rulantip.h declares it. Each function makes the inner call's settings and planes of C's
// numbers and arrays, which come one by one, and a struct or a number of its result. depth1, depth2 and depth3 are those of planes 1, 2 and 3.
#![tactic(auto)]

ghost use Rattle.std.specs.Prelude.{◌≡◌};
ghost use Rattle.stage.specs.Answers.{number, reply_of};
ghost use Rattle.stage.specs.Settings.{depths_of, settings_of};

use stage::{Depths, Refusal, Settings, Triple};

pub mod files;
pub mod previews;
pub mod searches;
pub mod transforms;

pub(crate) fn depths(depth1: u32, depth2: u32, depth3: u32) -> Depths
    ensures { result ≡ depths_of depth1 depth2 depth3 }
{
    Triple {
        c1: depth1,
        c2: depth2,
        c3: depth3,
    }
}

pub(crate) fn settings(
    width: u32,
    height: u32,
    depth1: u32,
    depth2: u32,
    depth3: u32,
    transform: u32,
) -> Settings
    ensures { result ≡ settings_of width height (depths_of depth1 depth2 depth3) transform }
{
    Settings {
        width,
        height,
        depths: depths(depth1, depth2, depth3),
        transform,
    }
}

// 0, or the number of a refusal.
pub(crate) fn number(answer: Result<(), Refusal>) -> u32
    ensures { result ≡ number (reply_of answer) }
{
    match answer {
        Ok(()) => 0,
        Err(refusal) => refusal.number(),
    }
}
