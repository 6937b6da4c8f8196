// Tests that numbers lie in a range, −below .. above or 0 .. 2^bits − 1.

#![tactic(auto)]

ghost use Rattle.std.specs.Prelude.{◌≡◌, ◌-◌, ◌^◌, ◌≤◌};
ghost use Rattle.integers.specs.Parts.{within};
ghost use Rattle.integers.specs.Lists.{all_within};

pub fn is_within(z: i32, below: u32, above: u32) -> bool
    requires { (below ≤ 1073741824) × (above ≤ 1073741824) }
    ensures { result ≡ within below above z }
{
    let low = 0 - (below as i32);
    let high = above as i32;
    (low <= z) & (z <= high)
}

// Every number of a plane. The loop has one way out and `&` runs both sides, so that it vectorises. A fold was tried here and below: of signed
// numbers its answer does not reach the goal.
pub fn all_within(plane: &[i32], below: u32, above: u32) -> bool
    requires { (below ≤ 1073741824) × (above ≤ 1073741824) }
    ensures { result ≡ all_within below above plane.now }
{
    let mut inside = true;
    for z in plane {
        inside &= is_within(*z, below, above);
    }
    inside
}

// Whether every number of a plane is one of 0 .. 2^bits − 1: the union of all their bits tells, the sign bits too.
pub fn all_fit(plane: &[i32], bits: u32) -> bool
    requires { bits ≤ 31 }
    ensures { result ≡ all_within 0 (2 ^ bits - 1) plane.now }
{
    let mut union = 0;
    for z in plane {
        union |= *z;
    }
    (union >> bits) == 0
}
