// The table of logarithms (01, "Estimate and search"), and one logarithm by the table.
#![tactic(auto)]

mod entries;

ghost use Rattle.std.specs.Prelude.{◌≤◌};
ghost use Rattle.logs.specs.Lookup.{Lookup};

use entries::LOGARITHMS;

// Where the constant table stands once: every use of a constant array copies the whole of it.
static TABLE: [u16; 4096] = LOGARITHMS;

// L(n), by the table.
pub fn log(n: u32) -> u32
    requires { (1 ≤ n) × (n ≤ 4096) }
    ensures { Lookup n result }
{
    TABLE[(n - 1) as usize] as u32
}
