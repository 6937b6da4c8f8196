// The work on a copy of the picture, at the front of the trial planes. It leaves all scratch zero.
// The estimate and the search have functions of their own: one with a closure for the call between would lend it planes that no contract can name. The
// front of each plane is lent by itself.
ghost use Rattle.std.specs.Prelude.{◌≡◌, T, length};
ghost use Rattle.stage.specs.declared.Bands.TheVariants.{One};
ghost use Rattle.stage.specs.Settings.{pixels};
ghost use Rattle.stage.specs.Planes.{triple, samples, samples_mut, SameReferences};
ghost use Rattle.stage.specs.Steps.{steps, places};
ghost use Rattle.stage.specs.Transform.{choices_fit};
ghost use Rattle.stage.specs.Search.{choices_estimate, winners};
ghost use Rattle.trials.specs.Searches.{PictureReady};
ghost use Rattle.search.specs.Copies.{Inside, front, CopyReady, Cleared};

use crate::scratch::{clear_planes, prepare};
use stage::{Planes, PlanesMut, Settings, Triple};
use trials::{estimate_picture, search_picture};

// The estimate of a picture that stands in the first numbers of planes that may be longer.
fn front_estimate(
    settings: Settings,
    choices: &[u8],
    c1: &mut [i32],
    c2: &mut [i32],
    c3: &mut [i32],
    counters: &mut [u32],
) -> u32
    requires inside { Inside (pixels settings) (triple c1.old c2.old c3.old) }
    requires ready { PictureReady settings (front (pixels settings) (triple c1.old c2.old c3.old)) counters.old }
    requires choices { T (choices_fit One settings choices.now) }
    ensures estimate { result ≡ choices_estimate settings (front (pixels settings) (triple c1.old c2.old c3.old)) choices.now }
    ensures counters { counters.new ≡ counters.old }
{
    let n = settings.width as usize * settings.height as usize;
    let mut planes = Triple {
        c1: &mut c1[..n],
        c2: &mut c2[..n],
        c3: &mut c3[..n],
    };
    estimate_picture(settings, choices, false, &mut planes, counters)
}

// The same by a copy.
pub fn estimate_copy(
    settings: Settings,
    choices: &[u8],
    picture: Planes,
    trials: &mut PlanesMut,
    counters: &mut [u32],
) -> u32
    requires ready { CopyReady settings (samples picture) (samples_mut trials.old) counters.old }
    requires choices { T (choices_fit One settings choices.now) }
    ensures same { SameReferences trials.old trials.new }
    ensures estimate { result ≡ choices_estimate settings (samples picture.entry) choices.now }
    ensures cleared { Cleared (samples_mut trials.old) counters.old (samples_mut trials.new) counters.new }
{
    prepare(trials, counters, picture);
    let c1 = &mut *trials.c1;
    let c2 = &mut *trials.c2;
    let c3 = &mut *trials.c3;
    let e = front_estimate(settings, choices, c1, c2, c3, counters);
    clear_planes(trials);
    e
}

// The search of such a picture, in so many rounds: the winners are left in the choices, and their estimate is answered.
fn front_search(
    settings: Settings,
    rounds: u32,
    choices: &mut [u8],
    c1: &mut [i32],
    c2: &mut [i32],
    c3: &mut [i32],
    counters: &mut [u32],
) -> u32
    requires inside { Inside (pixels settings) (triple c1.old c2.old c3.old) }
    requires ready { PictureReady settings (front (pixels settings) (triple c1.old c2.old c3.old)) counters.old }
    requires choices { length choices.old ≡ places (steps settings.transform) }
    ensures choices { choices.new ≡ winners settings (front (pixels settings) (triple c1.old c2.old c3.old)) rounds }
    ensures estimate { result ≡ choices_estimate settings (front (pixels settings) (triple c1.old c2.old c3.old)) choices.new }
    ensures counters { counters.new ≡ counters.old }
{
    let n = settings.width as usize * settings.height as usize;
    let mut planes = Triple {
        c1: &mut c1[..n],
        c2: &mut c2[..n],
        c3: &mut c3[..n],
    };
    search_picture(settings, rounds, choices, &mut planes, counters)
}

// The same by a copy.
pub fn search_copy(
    settings: Settings,
    rounds: u32,
    choices: &mut [u8],
    picture: Planes,
    trials: &mut PlanesMut,
    counters: &mut [u32],
) -> u32
    requires ready { CopyReady settings (samples picture) (samples_mut trials.old) counters.old }
    requires choices { length choices.old ≡ places (steps settings.transform) }
    ensures same { SameReferences trials.old trials.new }
    ensures choices { choices.new ≡ winners settings (samples picture.entry) rounds }
    ensures estimate { result ≡ choices_estimate settings (samples picture.entry) choices.new }
    ensures cleared { Cleared (samples_mut trials.old) counters.old (samples_mut trials.new) counters.new }
{
    prepare(trials, counters, picture);
    let c1 = &mut *trials.c1;
    let c2 = &mut *trials.c2;
    let c3 = &mut *trials.c3;
    let won = front_search(settings, rounds, choices, c1, c2, c3, counters);
    clear_planes(trials);
    won
}
