// A pass by means over a row: its ends, and what lies between them.
ghost use Rattle.std.specs.Prelude.{◌+◌, ◌*◌};
ghost use Rattle.stage.specs.Filter.{mean};
ghost use Rattle.kernel.specs.Lifting.{MeanSegment, MeanRow, Lifted};
ghost use Rattle.kernel.specs.Window.{border_mean};

use crate::centre::Centre;
use crate::pass::KeptPass;
use crate::segment::{lift_each, lift_many};
use crate::window::{Border, Whole};

// Indices from .. to − 1 of a row, without its ends.
fn lift_between_ends(
    c: &mut [i32],
    a: &[i32],
    window: Border,
    pass: KeptPass,
    from: usize,
    to: usize,
)
    requires { MeanSegment window pass from to a.now c.old }
    ensures { Lifted pass (border_mean window a.now) from to c.old c.new }
{
    let width = window.width;
    let centre = window.centre;
    let whole = window.left & window.right & window.above & window.below;
    if whole {
        lift_many(c, a, Whole { width, centre }, pass, from, to);
    } else {
        lift_each(c, a, window, pass, from, to);
    }
}

// Row y.
pub fn lift_row(
    c: &mut [i32],
    a: &[i32],
    width: usize,
    height: usize,
    y: usize,
    centre: Centre,
    pass: KeptPass,
)
    requires { MeanRow centre width height y pass a.now c.old }
    ensures { Lifted pass (mean width height centre.weight a.now) (y * width) (y * width + width) c.old c.new }
{
    let inner = Border {
        width,
        centre,
        left: true,
        right: true,
        above: 0 < y,
        below: y + 1 < height,
    };
    let first = Border {
        left: false,
        ..inner
    };
    let last = Border {
        right: false,
        ..inner
    };
    let only = Border {
        right: false,
        ..first
    };
    let start = y * width;
    if 1 < width {
        let end = start + width - 1;
        lift_each(c, a, first, pass, start, start + 1);
        lift_between_ends(c, a, inner, pass, start + 1, end);
        lift_each(c, a, last, pass, end, end + 1);
    } else if width == 1 {
        lift_each(c, a, only, pass, start, start + 1);
    }
}
