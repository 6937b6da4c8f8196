// A trial: the steps from one on, run, estimated and undone.
ghost use Rattle.std.specs.Prelude.{◌≡◌, true, false, cond, ◌≤◌, drop};
ghost use Rattle.stage.specs.Planes.{samples, samples_mut};
ghost use Rattle.stage.specs.Steps.{steps};
ghost use Rattle.stage.specs.Estimate.{plane_estimate};
ghost use Rattle.estimate.specs.Counting.{PlaneReady, PlaneFound};
ghost use Rattle.trials.specs.Trials.{changed, others, PartReady, PartFound, TrialReady, ChoicesReady, TrialFound, SameTrial};

use estimate::plane_estimate;
use lifting::passes::{last_change, step_count};
use lifting::steps::{run_steps, undo_steps};
use ranges::widest;
use stage::{Plan, Plane, Planes, PlanesMut, Settings, Triple};

// What all trials of a picture work on: planes that the steps change in place, and counters that are zero between two estimates.
#[derive(Drop)]
pub struct Trial<'t, 'p> {
    pub settings: Settings,
    pub planes: &'t mut PlanesMut<'p>,
    pub counters: &'t mut [u32],
}

// Which planes the steps from one on change.
fn changed(transform: u32, step: usize) -> Triple<bool>
    requires { transform ≤ 3 }
    ensures { result ≡ changed (drop step (steps transform)) }
{
    Triple {
        c1: step < last_change(transform, Plane::C1),
        c2: step < last_change(transform, Plane::C2),
        c3: step < last_change(transform, Plane::C3),
    }
}

fn others(set: Triple<bool>) -> Triple<bool>
    ensures { result ≡ others set }
{
    Triple {
        c1: !set.c1,
        c2: !set.c2,
        c3: !set.c3,
    }
}

// The estimate of a plane if it is chosen, else 0.
fn chosen_estimate(plane: &[i32], width: usize, chosen: bool, d: u32, counters: &mut [u32]) -> u32
    requires { PlaneReady width d plane.now counters.old }
    ensures { PlaneFound d (cond chosen (plane_estimate width plane.now) 0) result counters.new }
{
    if chosen {
        plane_estimate(plane, width, d, counters)
    } else {
        0
    }
}

// The sum of the estimates of some of the planes.
fn part_estimate(planes: Planes, settings: Settings, set: Triple<bool>, counters: &mut [u32]) -> u32
    requires { PartReady settings (samples planes) counters.old }
    ensures { PartFound settings set (samples planes.entry) result counters.new }
{
    // at once where there is none: without this branch a search takes 5 to 7 % longer
    if !(set.c1 | set.c2 | set.c3) {
        return 0;
    }
    let d = widest(settings.depths, settings.transform);
    let w = settings.width as usize;
    let e1 = chosen_estimate(planes.c1, w, set.c1, d, counters);
    let e2 = chosen_estimate(planes.c2, w, set.c2, d, counters);
    let e3 = chosen_estimate(planes.c3, w, set.c3, d, counters);
    e1 + e2 + e3
}

impl<'t, 'p> Trial<'t, 'p> {
    // The estimate of the planes that no step from one on changes.
    pub fn base_estimate(&mut self, step: usize) -> u32
        requires { TrialReady self.old.settings step (samples_mut self.old.planes.now) self.old.counters.now }
        ensures same { SameTrial self.old self.new }
        ensures planes { samples_mut self.new.planes.now ≡ samples_mut self.old.planes.now }
        ensures found { PartFound self.old.settings (others (changed (drop step (steps self.old.settings.transform)))) (samples_mut self.old.planes.now) result self.new.counters.now }
    {
        let settings = self.settings;
        let set = others(changed(settings.transform, step));
        let counters = &mut *self.counters;
        part_estimate(self.planes.shared(), settings, set, counters)
    }

    // The estimate of the choices, for planes that stand before a step. `base` is the estimate of the planes that no step from there on
    // changes. The planes are left with all steps run.
    pub fn finished_estimate(&mut self, step: usize, base: u32, choices: &[u8]) -> u32
        requires { ChoicesReady self.old.settings step base (samples_mut self.old.planes.now) choices.now self.old.counters.now }
        ensures same { SameTrial self.old self.new }
        ensures found { TrialFound self.old.settings step false (samples_mut self.old.planes.now) choices.now result (samples_mut self.new.planes.now) self.new.counters.now }
    {
        let settings = self.settings;
        let to = step_count(settings.transform);
        run_steps(self.planes, Plan::from(settings), choices, step, to);
        let set = changed(settings.transform, step);
        let counters = &mut *self.counters;
        base + part_estimate(self.planes.shared(), settings, set, counters)
    }

    // The same, and the planes are left as they were.
    pub fn estimate(&mut self, step: usize, base: u32, choices: &[u8]) -> u32
        requires { ChoicesReady self.old.settings step base (samples_mut self.old.planes.now) choices.now self.old.counters.now }
        ensures same { SameTrial self.old self.new }
        ensures found { TrialFound self.old.settings step true (samples_mut self.old.planes.now) choices.now result (samples_mut self.new.planes.now) self.new.counters.now }
    {
        let settings = self.settings;
        let e = self.finished_estimate(step, base, choices);
        let to = step_count(settings.transform);
        undo_steps(self.planes, Plan::from(settings), choices, step, to);
        e
    }
}
