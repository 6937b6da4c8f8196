// The ranges of finished planes, computed from a transform's steps as the definition computes them.
ghost use Rattle.std.specs.Prelude.{◌≡◌, ◌≤◌};
ghost use Rattle.stage.specs.Steps.{RCT, YCoCg-R, RDgDb, LDgEb};
ghost use Rattle.stage.specs.Ranges.{ranges, sample_range, sample_ranges, finished_ranges};
ghost use Rattle.stage.specs.Settings.{settings_of, UpTo16};
ghost use Rattle.ranges.specs.Read.{Small, AllSmall, AllSummable};

use crate::arithmetic::{add, divided, negate, subtract};
use stage::{Depths, Range, Triple};

type Ranges = Triple<Range>;

// The next four have the four transforms' own steps, one function for each, on what `sample_ranges` promises.
// C1 ← C1 − C2d; C3 ← C3 − C2d; C2 ← C2 + (C1d + C3d)/4
fn rct(r: Ranges) -> Ranges
    requires { AllSmall r }
    ensures { result ≡ ranges RCT r }
{
    let c1 = subtract(r.c1, r.c2);
    let c3 = subtract(r.c3, r.c2);
    let c2 = add(r.c2, divided::<4>(add(c1, c3)));
    Triple { c1, c2, c3 }
}

// C1 ← C1 − C3d; C3 ← C3 + C1d/2; C2 ← C2 − C3d; C3 ← C3 + C2d/2
fn ycocg_r(r: Ranges) -> Ranges
    requires { AllSmall r }
    ensures { result ≡ ranges YCoCg-R r }
{
    let c1 = subtract(r.c1, r.c3);
    let second = add(r.c3, divided::<2>(c1));
    let c2 = subtract(r.c2, second);
    let c3 = add(second, divided::<2>(c2));
    Triple { c1, c2, c3 }
}

// C3 ← −C3 + C2d; C2 ← −C2 + C1d
fn rdgdb(r: Ranges) -> Ranges
    requires { AllSmall r }
    ensures { result ≡ ranges RDgDb r }
{
    let c1 = r.c1;
    let c3 = negate(r.c3, r.c2);
    let c2 = negate(r.c2, c1);
    Triple { c1, c2, c3 }
}

// C2 ← −C2 + C1d; C1 ← C1 − C2d/2; C3 ← C3 − C1d
fn ldgeb(r: Ranges) -> Ranges
    requires { AllSmall r }
    ensures { result ≡ ranges LDgEb r }
{
    let c2 = negate(r.c2, r.c1);
    let c1 = subtract(r.c1, divided::<2>(c2));
    let c3 = subtract(r.c3, c1);
    Triple { c1, c2, c3 }
}

// 0 to M = 2^depth − 1
fn sample_range(depth: u32) -> Range
    requires { depth ≤ 16 }
    ensures { (result ≡ sample_range depth) × Small result }
{
    Range {
        below: 0,
        above: (1u32 << depth) - 1,
    }
}

fn sample_ranges(depths: Depths) -> Ranges
    requires { UpTo16 depths }
    ensures { (result ≡ sample_ranges (settings_of 1 1 depths 0)) × AllSmall result }
{
    let c1 = sample_range(depths.c1);
    let c2 = sample_range(depths.c2);
    let c3 = sample_range(depths.c3);
    Triple { c1, c2, c3 }
}

// Depths and transform are the settings' numbers, as the calls have tested them.
pub(crate) fn finished_ranges(depths: Depths, transform: u32) -> Ranges
    requires { UpTo16 depths × (transform ≤ 3) }
    ensures value { result ≡ finished_ranges (settings_of 1 1 depths transform) }
    ensures summable { AllSummable result }
{
    let r = sample_ranges(depths);
    match transform {
        0 => rct(r),
        1 => ycocg_r(r),
        2 => rdgdb(r),
        _ => ldgeb(r),
    }
}
