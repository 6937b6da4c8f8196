// The in-place lifting passes over a plane. A plane that is filtered has samples within ±2^19, a plane that is changed within ±2^22, and
// every sum of samples is an i32 or a u32.
#![tactic(auto)]

ghost use Rattle.std.specs.Prelude.{◌*◌};
ghost use Rattle.integers.specs.Lists.{Changed};
ghost use Rattle.stage.specs.Filter.{filtered};
ghost use Rattle.kernel.specs.Pass.{applied};
ghost use Rattle.kernel.specs.Lifting.{Liftable, LiftableMeans, Lifted};

mod centre;
pub mod pass;
mod row;
mod segment;
mod window;

use pass::KeptPass;
use segment::lift_many;
use window::{Itself, Nothing};

// Filters 1 to 11. Filters keep the numbers that the paper and the callers' choices give them.
fn lift_means(
    c: &mut [i32],
    a: &[i32],
    from: usize,
    to: usize,
    width: usize,
    height: usize,
    filter: usize,
    pass: KeptPass,
)
    requires { LiftableMeans width height filter pass from to a.now c.old }
    ensures { Lifted pass (filtered width height filter a.now) (from * width) (to * width) c.old c.new }
{
    let centre = centre::centre_at(filter - 1);
    for y in from..to {
        row::lift_row(c, a, width, height, y, centre, pass);
    }
}

// Rows from .. to − 1 of plane c by a pass with plane a under a filter. They are two numbers and no range: each is multiplied by the width.
pub fn lift_rows(
    c: &mut [i32],
    a: &[i32],
    width: usize,
    height: usize,
    filter: usize,
    pass: KeptPass,
    from: usize,
    to: usize,
)
    requires { Liftable width height filter pass from to a.now c.old }
    ensures { Changed (λ i x. applied pass x (filtered width height filter a.now i)) (from * width) (to * width) c.old c.new }
{
    // a filter keeps the number that the calls have tested
    match filter {
        0 => lift_many(c, a, Itself, pass, from * width, to * width),
        12 => lift_many(c, a, Nothing, pass, from * width, to * width),
        _ => lift_means(c, a, from, to, width, height, filter, pass),
    }
}
