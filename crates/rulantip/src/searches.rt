// The estimate and the search, with trial planes and in place, and how many counters they need.
ghost use Rattle.std.specs.Prelude.{◌≡◌};
ghost use Rattle.stage.specs.Answers.{reply_of};
ghost use Rattle.stage.specs.Planes.{triple};
ghost use Rattle.stage.specs.Settings.{depths_of, settings_of};
ghost use Rattle.stage.specs.Search.{counters_call, estimate_call, search_call, estimate_in_place, search_in_place};
ghost use Rattle.search.specs.Calls.{scratch_of, lent};
ghost use Rattle.rulantip.specs.Returned.{returned, estimated_by, estimated_returned};

use crate::{depths, settings};
use stage::{Estimated, Refusal, Triple};

// C has no results: a refusal's number, or 0, stands beside the values.
#[repr(C)]
#[derive(Clone, Copy)]
pub struct RulantipEstimated {
    pub refusal: u32,
    pub estimate: u32,
    pub samples: u32,
}

impl From<Result<Estimated, Refusal>> for RulantipEstimated {
    ghost from_gives = { λ r s. s ≡ estimated_by (reply_of r) };

    fn from(answer: Result<Estimated, Refusal>) -> RulantipEstimated {
        match answer {
            Ok(found) => RulantipEstimated {
                refusal: 0,
                estimate: found.estimate,
                samples: found.samples,
            },
            Err(refusal) => RulantipEstimated {
                refusal: refusal.number(),
                estimate: 0,
                samples: 0,
            },
        }
    }
}

#[unsafe(no_mangle)]
pub extern "C" fn rulantip_counters(depth1: u32, depth2: u32, depth3: u32, transform: u32) -> u32
    ensures { result ≡ counters_call (depths_of depth1 depth2 depth3) transform }
{
    ranges::counters(depths(depth1, depth2, depth3), transform)
}

#[unsafe(no_mangle)]
pub extern "C" fn rulantip_estimate(
    width: u32,
    height: u32,
    depth1: u32,
    depth2: u32,
    depth3: u32,
    transform: u32,
    choices: &[u8],
    c1: &[i32],
    c2: &[i32],
    c3: &[i32],
    t1: &mut [i32],
    t2: &mut [i32],
    t3: &mut [i32],
    counters: &mut [u32],
) -> RulantipEstimated
    ensures { returned result (scratch_of (triple t1.new t2.new t3.new) counters.new) ≡ estimated_returned (estimate_call (settings_of width height (depths_of depth1 depth2 depth3) transform) (triple c1.now c2.now c3.now) choices.now (scratch_of (triple t1.old t2.old t3.old) counters.old)) }
{
    let settings = settings(width, height, depth1, depth2, depth3, transform);
    let picture = Triple { c1, c2, c3 };
    let mut trials = Triple {
        c1: t1,
        c2: t2,
        c3: t3,
    };
    RulantipEstimated::from(search::estimate(settings, choices, picture, &mut trials, counters))
}

#[unsafe(no_mangle)]
pub extern "C" fn rulantip_search(
    width: u32,
    height: u32,
    depth1: u32,
    depth2: u32,
    depth3: u32,
    transform: u32,
    rounds: u32,
    choices: &mut [u8],
    c1: &[i32],
    c2: &[i32],
    c3: &[i32],
    t1: &mut [i32],
    t2: &mut [i32],
    t3: &mut [i32],
    counters: &mut [u32],
) -> RulantipEstimated
    ensures { returned result (lent choices.new (triple t1.new t2.new t3.new) counters.new) ≡ estimated_returned (search_call (settings_of width height (depths_of depth1 depth2 depth3) transform) (triple c1.now c2.now c3.now) rounds (lent choices.old (triple t1.old t2.old t3.old) counters.old)) }
{
    let settings = settings(width, height, depth1, depth2, depth3, transform);
    let picture = Triple { c1, c2, c3 };
    let mut trials = Triple {
        c1: t1,
        c2: t2,
        c3: t3,
    };
    let answer = search::search(settings, rounds, choices, picture, &mut trials, counters);
    RulantipEstimated::from(answer)
}

#[unsafe(no_mangle)]
pub extern "C" fn rulantip_estimate_in_place(
    width: u32,
    height: u32,
    depth1: u32,
    depth2: u32,
    depth3: u32,
    transform: u32,
    choices: &[u8],
    c1: &mut [i32],
    c2: &mut [i32],
    c3: &mut [i32],
    counters: &mut [u32],
) -> RulantipEstimated
    ensures { returned result (scratch_of (triple c1.new c2.new c3.new) counters.new) ≡ estimated_returned (estimate_in_place (settings_of width height (depths_of depth1 depth2 depth3) transform) choices.now (scratch_of (triple c1.old c2.old c3.old) counters.old)) }
{
    let settings = settings(width, height, depth1, depth2, depth3, transform);
    let mut planes = Triple { c1, c2, c3 };
    RulantipEstimated::from(in_place::estimate(settings, choices, &mut planes, counters))
}

#[unsafe(no_mangle)]
pub extern "C" fn rulantip_search_in_place(
    width: u32,
    height: u32,
    depth1: u32,
    depth2: u32,
    depth3: u32,
    transform: u32,
    rounds: u32,
    choices: &mut [u8],
    c1: &mut [i32],
    c2: &mut [i32],
    c3: &mut [i32],
    counters: &mut [u32],
) -> RulantipEstimated
    ensures { returned result (lent choices.new (triple c1.new c2.new c3.new) counters.new) ≡ estimated_returned (search_in_place (settings_of width height (depths_of depth1 depth2 depth3) transform) rounds (lent choices.old (triple c1.old c2.old c3.old) counters.old)) }
{
    let settings = settings(width, height, depth1, depth2, depth3, transform);
    let planes = &mut Triple { c1, c2, c3 };
    let answer = in_place::search(settings, rounds, choices, planes, counters);
    RulantipEstimated::from(answer)
}
