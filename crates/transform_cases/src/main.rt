// What the transforms' calls answer and leave: 01's limits, then generated pictures over all transforms and filters, in both
// forms, in bands or not. `compare` prints the same lines from the reference: gate transform_cases.
#![tactic(auto)]

mod bands;
mod generated;
mod limits;
mod pictures;
mod text;
mod wrapped;

use limits::limits;
use pictures::pictures;
use stage::{Plan, PlanesMut, Refusal};
use std::io;

// What a call is lent but for the planes.
#[derive(Clone, Copy)]
pub(crate) struct Run<'a> {
    pub(crate) plan: Plan,
    pub(crate) choices: &'a [u8],
}

impl Run<'_> {
    pub(crate) fn forward(self, planes: &mut PlanesMut) -> Result<(), Refusal> {
        transform::forward(self.plan, self.choices, planes)
    }

    pub(crate) fn inverse(self, planes: &mut PlanesMut) -> Result<(), Refusal> {
        transform::inverse(self.plan, self.choices, planes)
    }
}

fn main(rt: HostRuntime) -> io::Result<()> {
    limits(&rt)?;
    pictures(&rt)
}
