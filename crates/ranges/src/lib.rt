// A plane's range of finished planes; the widest of the three and the counters that it asks for; the tests of planes against ranges.
#![tactic(auto)]

mod arithmetic;
mod finished;

ghost use Rattle.std.specs.Prelude.{◌≡◌, ◌≤◌};
ghost use Rattle.stage.specs.Planes.{samples, get};
ghost use Rattle.stage.specs.Ranges.{extent, finished_ranges, widest, within_ranges};
ghost use Rattle.stage.specs.Settings.{settings_of, UpTo16, Allowed};
ghost use Rattle.stage.specs.Search.{counters_needed, counters_call};
ghost use Rattle.stage.specs.Transform.{is_picture};
ghost use Rattle.stage.specs.Graymap.{plane_of, plane_range};
ghost use Rattle.ranges.specs.Read.{Summable};

use finished::finished_ranges;
use integers::{all_fit, all_within};
use stage::{Depths, Plane, Planes, Range, Settings, are_depths};

// The range of one finished plane.
pub fn finished_range(depths: Depths, transform: u32, plane: Plane) -> Range
    requires { UpTo16 depths × (transform ≤ 3) }
    ensures { (result ≡ get (finished_ranges (settings_of 1 1 depths transform)) plane) × Summable result }
{
    let r = finished_ranges(depths, transform);
    // a method of `Triple` for this would serve one place
    match plane {
        Plane::C1 => r.c1,
        Plane::C2 => r.c2,
        Plane::C3 => r.c3,
    }
}

// The plane of number 1 or 2, and plane 3 for every other number.
fn plane_of(number: u32) -> Plane
    ensures { result ≡ plane_of number }
{
    match number {
        1 => Plane::C1,
        2 => Plane::C2,
        _ => Plane::C3,
    }
}

// The range of the plane of a number, which nobody need have tested.
pub fn plane_range(depths: Depths, transform: u32, plane: u32) -> Range
    requires { UpTo16 depths × (transform ≤ 3) }
    ensures { (result ≡ plane_range depths transform plane) × Summable result }
{
    finished_range(depths, transform, plane_of(plane))
}

// Highest less lowest.
fn extent(r: Range) -> u32
    requires { Summable r }
    ensures { result ≡ extent r }
{
    r.below + r.above
}

// D, the widest range (highest less lowest) of a transform's finished planes, which a picture's size does not change.
pub fn widest(depths: Depths, transform: u32) -> u32
    requires { UpTo16 depths × (transform ≤ 3) }
    ensures { result ≡ widest (settings_of 1 1 depths transform) }
{
    let r = finished_ranges(depths, transform);
    extent(r.c1).max(extent(r.c2).max(extent(r.c3)))
}

// Residuals lie within −D to D.
pub fn counters_needed(depths: Depths, transform: u32) -> u32
    requires { UpTo16 depths × (transform ≤ 3) }
    ensures { result ≡ counters_needed (settings_of 1 1 depths transform) }
{
    2 * widest(depths, transform) + 1
}

// How many counters the estimate and the search ask for. The papers' answer is 0 where they would refuse a depth or the transform.
pub fn counters(depths: Depths, transform: u32) -> u32
    ensures { result ≡ counters_call depths transform }
{
    if are_depths(depths) & (transform <= 3) {
        counters_needed(depths, transform)
    } else {
        0
    }
}

// Whether the planes hold a picture: each within its own depth.
pub fn is_picture(settings: Settings, planes: Planes) -> bool
    requires { Allowed settings }
    ensures { result ≡ is_picture settings (samples planes.entry) }
{
    let d = settings.depths;
    all_fit(planes.c1, d.c1) & (all_fit(planes.c2, d.c2) & all_fit(planes.c3, d.c3))
}

// Whether each plane lies in its range of finished planes.
pub fn in_finished_ranges(settings: Settings, planes: Planes) -> bool
    requires { Allowed settings }
    ensures { result ≡ within_ranges (finished_ranges settings) (samples planes.entry) }
{
    let r = finished_ranges(settings.depths, settings.transform);
    all_within(planes.c1, r.c1.below, r.c1.above)
        & (all_within(planes.c2, r.c2.below, r.c2.above)
            & all_within(planes.c3, r.c3.below, r.c3.above))
}
