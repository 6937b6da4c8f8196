// A place: filters 0 to 12 tried with the others held.
ghost use Rattle.std.specs.Prelude.{◌≡◌};
ghost use Rattle.stage.specs.Planes.{samples_mut};
ghost use Rattle.stage.specs.Steps.{steps};
ghost use Rattle.lifting.specs.Passes.{step_of};
ghost use Rattle.trials.specs.Trials.{leads, FilterReady, FilterTried, ChooseReady, Chosen, SameTrial};

use crate::trial::Trial;
use lifting::passes::step_of;

// The filter that leads at a place, and its estimate.
#[derive(Clone, Copy, Debug, PartialEq, Eq)]
pub struct Best {
    pub filter: u8,
    pub estimate: u32,
}

// A place and its step, the estimate of the planes that no step from there on changes, and the present filter.
#[derive(Clone, Copy, Debug, PartialEq, Eq)]
pub struct Place {
    pub place: usize,
    pub step: usize,
    pub base: u32,
    pub present: Best,
}

// A filter takes the lead only with a lower estimate: an order that compares filters too would settle a tie otherwise.
fn better(best: Best, filter: u8, estimate: u32) -> Best
    ensures { result ≡ leads best filter estimate }
{
    if estimate < best.estimate {
        Best { filter, estimate }
    } else {
        best
    }
}

impl<'t, 'p> Trial<'t, 'p> {
    // The estimate with a filter at a place. The present filter's is known, and not found again.
    fn try_filter(&mut self, at: Place, filter: u8, choices: &mut [u8]) -> u32
        requires { FilterReady self.old.settings at filter (samples_mut self.old.planes.now) choices.old self.old.counters.now }
        ensures same { SameTrial self.old self.new }
        ensures tried { FilterTried self.old.settings at filter (samples_mut self.old.planes.now) choices.old result (samples_mut self.new.planes.now) choices.new self.new.counters.now }
    {
        let place = at.place;
        choices[place] = filter;
        if filter == at.present.filter {
            return at.present.estimate;
        }
        self.estimate(at.step, at.base, choices)
    }

    // The winner at a place, for planes that stand before the place's step. `estimate` is that of the present filter; the answer is the
    // winner's.
    pub fn choose(&mut self, place: usize, estimate: u32, choices: &mut [u8]) -> u32
        requires { ChooseReady self.old.settings place estimate (samples_mut self.old.planes.now) choices.old self.old.counters.now }
        ensures same { SameTrial self.old self.new }
        ensures chosen { Chosen self.old.settings (step_of (steps self.old.settings.transform) place) place (samples_mut self.old.planes.now) choices.old result (samples_mut self.new.planes.now) choices.new self.new.counters.now }
    {
        let step = step_of(self.settings.transform, place);
        let base = self.base_estimate(step);
        let present = Best {
            filter: choices[place],
            estimate,
        };
        let at = Place {
            place,
            step,
            base,
            present,
        };
        let mut best = present;
        // each turn changes planes and choices, which no chain may hold
        for filter in 0..13 {
            let e = self.try_filter(at, filter, choices);
            best = better(best, filter, e);
        }
        choices[place] = best.filter;
        best.estimate
    }
}
