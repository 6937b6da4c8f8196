// Passes over the indices from .. to − 1 of a plane whose samples have windows of one kind.
ghost use Rattle.kernel.specs.Pass.{kept_pass};
ghost use Rattle.kernel.specs.Lifting.{Segment, Lifted};

use crate::pass::{KeptPass, Lift};
use crate::window::Window;
use stage::Form;

// Few samples, by whatever pass is asked for at run time.
#[inline(always)]
pub fn lift_each<W: Window>(
    c: &mut [i32],
    a: &[i32],
    window: W,
    pass: KeptPass,
    from: usize,
    to: usize,
)
    requires { Segment (W.inside window a.now) pass from to c.old }
    ensures { Lifted pass (W.value window a.now) from to c.old c.new }
{
    for i in from..to {
        c[i] = pass.apply(c[i], window.at(a, i));
    }
}

// Many samples. Each arm of a match on the form, and then on the lift, is the same call: in each the compiler knows both, and so makes a loop
// for them alone. The pass is taken apart for that: what stands in a struct is less well known.
pub fn lift_many<W: Window>(
    c: &mut [i32],
    a: &[i32],
    window: W,
    pass: KeptPass,
    from: usize,
    to: usize,
)
    requires { Segment (W.inside window a.now) pass from to c.old }
    ensures { Lifted pass (W.value window a.now) from to c.old c.new }
{
    let KeptPass { lift, form, depth } = pass;
    match form {
        Form::Plain => lift_by(c, a, window, lift, form, depth, from, to),
        Form::Wrapped => lift_by(c, a, window, lift, form, depth, from, to),
    }
}

#[inline(always)]
fn lift_by<W: Window>(
    c: &mut [i32],
    a: &[i32],
    window: W,
    lift: Lift,
    form: Form,
    depth: u32,
    from: usize,
    to: usize,
)
    requires { Segment (W.inside window a.now) (kept_pass lift form depth) from to c.old }
    ensures { Lifted (kept_pass lift form depth) (W.value window a.now) from to c.old c.new }
{
    match lift {
        Lift::Add => lift_each(c, a, window, KeptPass { lift, form, depth }, from, to),
        Lift::Subtract => lift_each(c, a, window, KeptPass { lift, form, depth }, from, to),
        Lift::Negate => lift_each(c, a, window, KeptPass { lift, form, depth }, from, to),
        Lift::AddHalf => lift_each(c, a, window, KeptPass { lift, form, depth }, from, to),
        Lift::SubtractHalf => lift_each(c, a, window, KeptPass { lift, form, depth }, from, to),
        Lift::FourfoldAdd => lift_each(c, a, window, KeptPass { lift, form, depth }, from, to),
        Lift::FourfoldSubtract => lift_each(c, a, window, KeptPass { lift, form, depth }, from, to),
        Lift::QuarterAdd => lift_each(c, a, window, KeptPass { lift, form, depth }, from, to),
        Lift::QuarterSubtract => lift_each(c, a, window, KeptPass { lift, form, depth }, from, to),
    }
}
