// Lifting steps forward and back, in place, in all bands of a picture. A step covers the whole picture before the next begins.
ghost use Rattle.std.specs.Prelude.{◌≡◌, ◌≤◌, ◌<◌, min, length, get_or};
ghost use Rattle.integers.specs.Slices.{slice};
ghost use Rattle.stage.specs.Planes.{samples_mut, SameReferences};
ghost use Rattle.stage.specs.Steps.{steps, step, run, undo};
ghost use Rattle.stage.specs.Transform.{setup};
ghost use Rattle.lifting.specs.Passes.{step_at, reversed_if};
ghost use Rattle.lifting.specs.Steps.{StepReady, RunReady, UndoReady};
ghost use Rattle.lifting.specs.BandRows.{band_rows, rows_before, BandReady, BandChanged};

use crate::passes::places;
use crate::rows::{lift_plane, lift_quarter};
use stage::{Bands, Plan, PlanesMut};

// How many rows a band has; the last one may have fewer.
fn band_rows(bands: Bands, height: u32) -> usize
    ensures { (result ≡ band_rows bands height) × (result < 4294967296) }
{
    match bands {
        Bands::One => height as usize,
        Bands::Of(n) => n as usize,
    }
}

// How many rows the bands above a band have: the number of its first row, and past the last band all rows.
fn rows_before(bands: Bands, height: u32, band: usize) -> usize
    requires { band ≤ height }
    ensures { result ≡ rows_before bands height band }
{
    (band * band_rows(bands, height)).min(height as usize)
}

fn filter_at(choices: &[u8], choice: usize) -> usize
    requires { choice < length choices.now }
    ensures { result ≡ get_or choices.now choice 0 }
{
    choices[choice] as usize
}

// Step k of a transform, or back, in the rows of one band, by that band's filters.
fn lift_band(planes: &mut PlanesMut, plan: Plan, choices: &[u8], k: usize, back: bool, band: usize)
    requires { BandReady plan.bands plan.settings choices.now k band (samples_mut planes.old) }
    ensures same { SameReferences planes.old planes.new }
    ensures rows { BandChanged plan.form plan.bands plan.settings choices.now k back band (samples_mut planes.old) (samples_mut planes.new) }
{
    let settings = plan.settings;
    let bands = plan.bands;
    let from = rows_before(bands, settings.height, band);
    let to = rows_before(bands, settings.height, band + 1);
    let first = places(settings.transform) * band;
    let f = filter_at(choices, first + k);
    if (settings.transform == 0) & (k == 2) {
        let g = filter_at(choices, first + 3);
        let c1 = &mut *planes.c1;
        let c2 = &mut *planes.c2;
        let c3 = &mut *planes.c3;
        lift_quarter(c2, c1, c3, plan, f, g, back, from, to);
    } else {
        lift_plane(planes, plan, k, f, back, from, to);
    }
}

// Step k of a transform, or back, band after band. `back` is a flag and no closure: one promise is told of both ways (`reversed_if`), and no loop
// over samples asks it.
fn run_step(planes: &mut PlanesMut, plan: Plan, choices: &[u8], k: usize, back: bool)
    requires { StepReady plan.form plan.bands plan.settings choices.now k back (samples_mut planes.old) }
    ensures same { SameReferences planes.old planes.new }
    ensures made { samples_mut planes.new ≡ step (setup plan.form plan.bands plan.settings choices.now) (reversed_if back (step_at plan.settings.transform k)) (samples_mut planes.old) }
{
    let height = plan.settings.height;
    let bands = plan.bands;
    // A while: no number at hand tells how many bands there are, only where the rows end.
    let mut band = 0;
    while rows_before(bands, height, band) < height as usize {
        lift_band(planes, plan, choices, k, back, band);
        band += 1;
    }
}

// Steps from .. to − 1 of a transform.
pub fn run_steps(planes: &mut PlanesMut, plan: Plan, choices: &[u8], from: usize, to: usize)
    requires { RunReady plan.form plan.bands plan.settings choices.now from to (samples_mut planes.old) }
    ensures same { SameReferences planes.old planes.new }
    ensures made { samples_mut planes.new ≡ run (setup plan.form plan.bands plan.settings choices.now) (slice (steps plan.settings.transform) from to) (samples_mut planes.old) }
{
    for k in from..to {
        run_step(planes, plan, choices, k, false);
    }
}

// The same steps undone, the last first.
pub fn undo_steps(planes: &mut PlanesMut, plan: Plan, choices: &[u8], from: usize, to: usize)
    requires { UndoReady plan.form plan.bands plan.settings choices.now from to (samples_mut planes.old) }
    ensures same { SameReferences planes.old planes.new }
    ensures made { samples_mut planes.new ≡ undo (setup plan.form plan.bands plan.settings choices.now) (slice (steps plan.settings.transform) from to) (samples_mut planes.old) }
{
    for k in (from..to).rev() {
        run_step(planes, plan, choices, k, true);
    }
}
