// The calls `estimate` and `search` (01, "Estimate and search"). Both work on a copy of the picture, at the front of the trial planes.
#![tactic(auto)]

mod copies;
pub mod refusals;
pub mod scratch;

ghost use Rattle.std.specs.Prelude.{◌≡◌};
ghost use Rattle.stage.specs.Estimate.{counted};
ghost use Rattle.stage.specs.Planes.{samples, samples_mut, SameReferences};
ghost use Rattle.search.specs.Calls.{scratch_of, lent, EstimateGives, SearchGives};

use copies::{estimate_copy, search_copy};
use refusals::{check_estimate, check_search};
use stage::{Estimated, Planes, PlanesMut, Refusal, Settings};

// Success, for planes of n samples.
pub fn found(estimate: u32, n: usize) -> Estimated
    ensures { result ≡ record { estimate = estimate; samples = counted n } }
{
    Estimated {
        estimate,
        samples: estimate::counted(n),
    }
}

// A picture's estimate under choices. Refused: 2, 5, 6, 7, 8 for settings, 9 for scratch that is short, 11 for planes that hold no
// picture. Refused scratch is as lent, else it is all zero.
pub fn estimate(
    settings: Settings,
    choices: &[u8],
    picture: Planes,
    trials: &mut PlanesMut,
    counters: &mut [u32],
) -> Result<Estimated, Refusal>
    ensures same { SameReferences trials.old trials.new }
    ensures gives { EstimateGives settings choices.now (samples picture.entry) (scratch_of (samples_mut trials.old) counters.old) result (scratch_of (samples_mut trials.new) counters.new) }
{
    let room = trials.shared().lengths();
    check_estimate(settings, choices, picture, room, counters.len())?;
    let e = estimate_copy(settings, choices, picture, trials, counters);
    Ok(found(e, picture.c1.len()))
}

// The winning filters of a picture, left in the choices, and their estimate. Refused: as above, and 10 for the rounds.
pub fn search(
    settings: Settings,
    rounds: u32,
    choices: &mut [u8],
    picture: Planes,
    trials: &mut PlanesMut,
    counters: &mut [u32],
) -> Result<Estimated, Refusal>
    ensures same { SameReferences trials.old trials.new }
    ensures gives { SearchGives settings rounds (samples picture.entry) (lent choices.old (samples_mut trials.old) counters.old) result (lent choices.new (samples_mut trials.new) counters.new) }
{
    let room = trials.shared().lengths();
    check_search(
        settings,
        rounds,
        choices.len(),
        picture,
        room,
        counters.len(),
    )?;
    let won = search_copy(settings, rounds, choices, picture, trials, counters);
    Ok(found(won, picture.c1.len()))
}
