// Each transform as one table of passes over planes: whatever the code runs of a transform is read from it. (Crate `ranges` has the steps
// once more, for ranges.) Transforms and places keep the numbers that the papers and the calls give them.
ghost use Rattle.std.specs.Prelude.{◌≡◌, [], ◌+◌, ◌≤◌, ◌<◌, length, get_or};
ghost use Rattle.stage.specs.Steps.{steps, places};
ghost use Rattle.kernel.specs.Pass.{kept_pass};
ghost use Rattle.lifting.specs.Passes.{tables, pass_at, way, step_of, last_change};

use kernel::pass::{KeptPass, Lift};
use stage::{Form, Plane};

// A pass changes a plane by the filtered values of another, which it reads: the kernel's pass forward and back, and the step that
// it belongs to. Its number in its transform is its place.
#[derive(Clone, Copy, Debug, PartialEq, Eq)]
pub struct Pass {
    pub changed: Plane,
    pub read: Plane,
    pub forward: Lift,
    pub back: Lift,
    pub step: usize,
}

macro_rules! table {
    ($(($changed:ident, $read:ident, $forward:ident, $back:ident, $step:literal)),* $(,)?) => {
        [$(Pass {
            changed: Plane::$changed,
            read: Plane::$read,
            forward: Lift::$forward,
            back: Lift::$back,
            step: $step,
        }),*]
    };
}

// C1 ← C1 − C2d; C3 ← C3 − C2d; C2 ← C2 + (C1d + C3d)/4
static RCT: [Pass; 4] = table![
    (C1, C2, Subtract, Add, 0),
    (C3, C2, Subtract, Add, 1),
    (C2, C1, FourfoldAdd, FourfoldSubtract, 2),
    (C2, C3, QuarterAdd, QuarterSubtract, 2),
];

// C1 ← C1 − C3d; C3 ← C3 + C1d/2; C2 ← C2 − C3d; C3 ← C3 + C2d/2
static YCOCG_R: [Pass; 4] = table![
    (C1, C3, Subtract, Add, 0),
    (C3, C1, AddHalf, SubtractHalf, 1),
    (C2, C3, Subtract, Add, 2),
    (C3, C2, AddHalf, SubtractHalf, 3),
];

// C3 ← −C3 + C2d; C2 ← −C2 + C1d
static RDGDB: [Pass; 2] = table![(C3, C2, Negate, Negate, 0), (C2, C1, Negate, Negate, 1),];

// C2 ← −C2 + C1d; C1 ← C1 − C2d/2; C3 ← C3 − C1d
static LDGEB: [Pass; 3] = table![
    (C2, C1, Negate, Negate, 0),
    (C1, C2, SubtractHalf, AddHalf, 1),
    (C3, C1, Subtract, Add, 2),
];

impl Pass {
    // The kernel's pass forward, or back, and how its result is kept.
    // `back` is a flag as in `run_step`.
    pub(crate) fn kept(self, back: bool, form: Form, depth: u32) -> KeptPass
        ensures { result ≡ kept_pass (way back self) form depth }
    {
        let lift = if back { self.back } else { self.forward };
        KeptPass { lift, form, depth }
    }
}

// A transform's passes, place by place, by the number that the calls have tested: none, past the last transform.
fn passes(transform: u32) -> &'static [Pass]
    ensures { result.now ≡ get_or tables transform [] }
{
    match transform {
        0 => &RCT,
        1 => &YCOCG_R,
        2 => &RDGDB,
        3 => &LDGEB,
        _ => &[],
    }
}

// How many places a transform has: none, past the last transform.
pub fn places(transform: u32) -> usize
    ensures { result ≡ places (steps transform) }
{
    passes(transform).len()
}

// The pass of a place.
pub fn pass_at(transform: u32, place: usize) -> Pass
    requires { place < places (steps transform) }
    ensures { result ≡ pass_at transform place }
{
    passes(transform)[place]
}

// How many steps a transform has.
pub fn step_count(transform: u32) -> usize
    requires { transform ≤ 3 }
    ensures { result ≡ length (steps transform) }
{
    pass_at(transform, places(transform) - 1).step + 1
}

// The step that has a place.
pub fn step_of(transform: u32, place: usize) -> usize
    requires { place < places (steps transform) }
    ensures { result ≡ step_of (steps transform) place }
{
    pass_at(transform, place).step
}

// How many steps a transform has up to the last that changes a plane.
pub fn last_change(transform: u32, plane: Plane) -> usize
    requires { transform ≤ 3 }
    ensures { result ≡ last_change (steps transform) plane }
{
    let mut last = 0;
    for x in passes(transform) {
        if x.changed == plane {
            last = x.step + 1;
        }
    }
    last
}
