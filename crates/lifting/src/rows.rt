// Rows of a plane by a step whose places have one filter each, forward or back, in place: one pass over the rows, but for RCT's third step, whose
// two filtered values take two passes over each row. A step whose places are all null is skipped: it takes none.
ghost use Rattle.std.specs.Prelude.{◌*◌};
ghost use Rattle.integers.specs.Lists.{Changed};
ghost use Rattle.stage.specs.Planes.{samples_mut, SameReferences};
ghost use Rattle.lifting.specs.Passes.{pass_at, passed, quarter_at};
ghost use Rattle.lifting.specs.Steps.{PassReady, QuarterReady, RowsChanged};

use crate::passes::pass_at;
use kernel::lift_rows;
use stage::{Form, Plan, Plane, PlanesMut};

// Rows from .. to − 1 of one plane by a step of one place, or back: by the pass of the place under its filter. A null filter leaves
// them as they are.
pub(crate) fn lift_plane(
    planes: &mut PlanesMut,
    plan: Plan,
    place: usize,
    filter: usize,
    back: bool,
    from: usize,
    to: usize,
)
    requires { PassReady plan.settings place filter from to (samples_mut planes.old) }
    ensures same { SameReferences planes.old planes.new }
    ensures rows { RowsChanged (passed plan.form plan.settings back filter (pass_at plan.settings.transform place) (samples_mut planes.old)) (pass_at plan.settings.transform place).changed plan.settings from to (samples_mut planes.old) (samples_mut planes.new) }
{
    let null = filter == 12;
    if null {
        return;
    }
    let settings = plan.settings;
    let x = pass_at(settings.transform, place);
    let n = x.kept(back, plan.form, settings.depths.c1);
    let w = settings.width as usize;
    let h = settings.height as usize;
    let c1 = &mut *planes.c1;
    let c2 = &mut *planes.c2;
    let c3 = &mut *planes.c3;
    // an arm for each pair: one plane is lent to be changed while another is read
    match x.changed {
        Plane::C1 => match x.read {
            Plane::C2 => lift_rows(c1, c2, w, h, filter, n, from, to),
            _ => lift_rows(c1, c3, w, h, filter, n, from, to),
        },
        Plane::C2 => match x.read {
            Plane::C1 => lift_rows(c2, c1, w, h, filter, n, from, to),
            _ => lift_rows(c2, c3, w, h, filter, n, from, to),
        },
        Plane::C3 => match x.read {
            Plane::C1 => lift_rows(c3, c1, w, h, filter, n, from, to),
            _ => lift_rows(c3, c2, w, h, filter, n, from, to),
        },
    }
}

// RCT's third step, or back: rows from .. to − 1 of plane c by a quarter of the filtered values of planes a and b. The first pass keeps its
// result as it is, so that it is divided before it is reduced. Two null filters leave c as it is.
pub(crate) fn lift_quarter(
    c: &mut [i32],
    a: &[i32],
    b: &[i32],
    plan: Plan,
    f: usize,
    g: usize,
    back: bool,
    from: usize,
    to: usize,
)
    requires { QuarterReady plan.settings f g from to a.now b.now c.old }
    ensures { Changed (quarter_at plan.form plan.settings.depths.c1 plan.settings.width plan.settings.height back f g a.now b.now) (from * plan.settings.width) (to * plan.settings.width) c.old c.new }
{
    let null = (f == 12) & (g == 12);
    if null {
        return;
    }
    let settings = plan.settings;
    let first = pass_at(0, 2).kept(back, Form::Plain, settings.depths.c1);
    let second = pass_at(0, 3).kept(back, plan.form, settings.depths.c1);
    let w = settings.width as usize;
    let h = settings.height as usize;
    for y in from..to {
        lift_rows(c, a, w, h, f, first, y, y + 1);
        lift_rows(c, b, w, h, g, second, y, y + 1);
    }
}
