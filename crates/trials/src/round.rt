// A round through the places in order, and the rounds of a search.
ghost use Rattle.stage.specs.Planes.{samples_mut};
ghost use Rattle.stage.specs.Steps.{steps, places};
ghost use Rattle.stage.specs.Search.{rounds, choices_estimate};
ghost use Rattle.trials.specs.Trials.{RoundReady, RoundsDone, RoundDone, SameTrial};

use crate::trial::Trial;
use lifting::passes::step_of;
use lifting::steps::{run_steps, undo_steps};
use stage::Plan;

impl<'t, 'p> Trial<'t, 'p> {
    // The planes hold the picture before and after; `estimate` is that of the choices before, the answer that after.
    fn round(&mut self, estimate: u32, choices: &mut [u8]) -> u32
        requires { RoundReady self.old.settings estimate (samples_mut self.old.planes.now) choices.old self.old.counters.now }
        ensures same { SameTrial self.old self.new }
        ensures done { RoundDone self.old.settings (samples_mut self.old.planes.now) choices.old result (samples_mut self.new.planes.now) choices.new self.new.counters.now }
    {
        let transform = self.settings.transform;
        let plan = Plan::from(self.settings);
        let mut e = estimate;
        let mut from = 0;
        // a place is a number, and each turn changes the choices
        for place in 0..choices.len() {
            let step = step_of(transform, place);
            run_steps(self.planes, plan, choices, from, step);
            e = self.choose(place, e, choices);
            from = step;
        }
        undo_steps(self.planes, plan, choices, 0, from);
        e
    }

    // That many rounds.
    pub fn rounds(&mut self, count: u32, estimate: u32, choices: &mut [u8]) -> u32
        requires { RoundReady self.old.settings estimate (samples_mut self.old.planes.now) choices.old self.old.counters.now }
        ensures same { SameTrial self.old self.new }
        ensures done { RoundsDone self.old.settings (samples_mut self.old.planes.now) (rounds (choices_estimate self.old.settings (samples_mut self.old.planes.now)) (places (steps self.old.settings.transform)) count choices.old) result (samples_mut self.new.planes.now) choices.new self.new.counters.now }
    {
        let mut e = estimate;
        for i in 0..count {
            e = self.round(e, choices);
        }
        e
    }
}
