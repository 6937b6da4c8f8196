// The arithmetic of ranges: x is the range of the plane that a step changes, v that of what the step adds or subtracts.
// Each asks for ranges that can be added: a type of such ranges would not hold the sum of two.
ghost use Rattle.std.specs.Prelude.{◌≡◌, ◌≤◌};
ghost use Rattle.stage.specs.Steps.{add, subtract, negate};
ghost use Rattle.stage.specs.Ranges.{divided, lift_range};
ghost use Rattle.ranges.specs.Read.{Summable};

use stage::Range;

pub fn add(x: Range, v: Range) -> Range
    requires { Summable x × Summable v }
    ensures { result ≡ lift_range add v x }
{
    Range {
        below: x.below + v.below,
        above: x.above + v.above,
    }
}

pub fn subtract(x: Range, v: Range) -> Range
    requires { Summable x × Summable v }
    ensures { result ≡ lift_range subtract v x }
{
    Range {
        below: x.below + v.above,
        above: x.above + v.below,
    }
}

// −x + v, and x itself, which a skipped step leaves
pub fn negate(x: Range, v: Range) -> Range
    requires { Summable x × Summable v }
    ensures { result ≡ lift_range negate v x }
{
    Range {
        below: x.below.max(x.above + v.below),
        above: x.above.max(x.below + v.above),
    }
}

// divided by N and rounded down
pub fn divided<const N: u32>(v: Range) -> Range
    requires summable { Summable v }
    requires divisor { (1 ≤ N) × (N ≤ 4) }
    ensures { result ≡ divided N v }
{
    Range {
        below: (v.below + (N - 1)) / N,
        above: v.above / N,
    }
}
