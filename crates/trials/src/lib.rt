// The filter search and the estimate of choices (01, "Estimate and search"), on three planes that hold a picture, with counters that
// are zero before and after.
#![tactic(auto)]

mod place;
mod round;
mod trial;

ghost use Rattle.std.specs.Prelude.{◌≡◌, T, length};
ghost use Rattle.stage.specs.Planes.{samples_mut, SameReferences};
ghost use Rattle.stage.specs.Steps.{steps, places};
ghost use Rattle.stage.specs.declared.Bands.TheVariants.{One};
ghost use Rattle.stage.specs.Transform.{choices_fit};
ghost use Rattle.trials.specs.Searches.{PictureReady, EstimateFound, SearchFound};

use stage::{PlanesMut, Settings};
use trial::Trial;

// The estimate of a picture under choices; the planes are left transformed, or as they were: `undone`, a flag since
// one promise is told of both.
pub fn estimate_picture(
    settings: Settings,
    choices: &[u8],
    undone: bool,
    planes: &mut PlanesMut,
    counters: &mut [u32],
) -> u32
    requires picture_ready { PictureReady settings (samples_mut planes.old) counters.old }
    requires t { T (choices_fit One settings choices.now) }
    ensures same { SameReferences planes.old planes.new }
    ensures found { EstimateFound settings undone (samples_mut planes.old) counters.old choices.now result (samples_mut planes.new) counters.new }
{
    let mut trial = Trial {
        settings,
        planes,
        counters,
    };
    let base = trial.base_estimate(0);
    if undone {
        trial.estimate(0, base, choices)
    } else {
        trial.finished_estimate(0, base, choices)
    }
}

// The winning filters of a picture, left in the choices, and their estimate; the planes are left as they were. What the choices hold
// on entry does not matter.
pub fn search_picture(
    settings: Settings,
    count: u32,
    choices: &mut [u8],
    planes: &mut PlanesMut,
    counters: &mut [u32],
) -> u32
    requires picture_ready { PictureReady settings (samples_mut planes.old) counters.old }
    requires choices_len { length choices.old ≡ places (steps settings.transform) }
    ensures same { SameReferences planes.old planes.new }
    ensures found { SearchFound settings count (samples_mut planes.old) counters.old result choices.new (samples_mut planes.new) counters.new }
{
    choices.fill(0);
    let e = estimate_picture(settings, choices, true, planes, counters);
    let mut trial = Trial {
        settings,
        planes,
        counters,
    };
    trial.rounds(count, e, choices)
}
