// What the search and the estimate answer for generated pictures. `compare` prints the same lines from the reference:
// gate search_cases.
#![tactic(auto)]

mod cases;
mod picture;
mod text;

use cases::{cases, refusals};
use std::io;

fn main(rt: HostRuntime) -> io::Result<()> {
    cases(&rt)?;
    refusals(&rt)
}
