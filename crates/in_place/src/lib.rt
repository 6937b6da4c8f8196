// The calls `estimate` and `search` in place (02, request 5). Both are lent the picture's planes to work on, and counters alone: what
// the steps change they undo, so the planes are as lent when a call returns.
#![tactic(auto)]

ghost use Rattle.stage.specs.Planes.{samples_mut, SameReferences};
ghost use Rattle.search.specs.Calls.{scratch_of, lent};
ghost use Rattle.in_place.specs.Calls.{EstimateGives, SearchGives};

use search::found;
use search::refusals::{check_estimate, check_search};
use stage::{Estimated, PlanesMut, Refusal, Settings};
use trials::{estimate_picture, search_picture};

// A picture's estimate under choices. Refused: 2, 5, 6, 7, 8 for settings, 9 for too few counters, 11 for planes that hold no picture.
// Refused counters are as lent, else they are all zero.
pub fn estimate(
    settings: Settings,
    choices: &[u8],
    planes: &mut PlanesMut,
    counters: &mut [u32],
) -> Result<Estimated, Refusal>
    ensures same { SameReferences planes.old planes.new }
    ensures gives { EstimateGives settings choices.now (scratch_of (samples_mut planes.old) counters.old) result (scratch_of (samples_mut planes.new) counters.new) }
{
    // the picture's own planes are the trial planes, so 9 is for the counters alone
    let room = planes.shared().lengths();
    check_estimate(settings, choices, planes.shared(), room, counters.len())?;
    counters.fill(0);
    let e = estimate_picture(settings, choices, true, planes, counters);
    Ok(found(e, room.c1))
}

// The winning filters of a picture, left in the choices, and their estimate. Refused: as above, and 10 for the rounds.
pub fn search(
    settings: Settings,
    rounds: u32,
    choices: &mut [u8],
    planes: &mut PlanesMut,
    counters: &mut [u32],
) -> Result<Estimated, Refusal>
    ensures same { SameReferences planes.old planes.new }
    ensures gives { SearchGives settings rounds (lent choices.old (samples_mut planes.old) counters.old) result (lent choices.new (samples_mut planes.new) counters.new) }
{
    let n = choices.len();
    let room = planes.shared().lengths();
    check_search(settings, rounds, n, planes.shared(), room, counters.len())?;
    counters.fill(0);
    let won = search_picture(settings, rounds, choices, planes, counters);
    Ok(found(won, room.c1))
}
