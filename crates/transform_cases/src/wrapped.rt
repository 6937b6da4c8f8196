// The generated pictures in the wrapped forms.
use crate::Run;
use crate::generated::{Generated, there_and_back};
use crate::text::{AnswerText, PlanesText};
use stage::{Form, Plan, PlanesMut, Settings, each};
use std::io;

// The picture taken for finished planes, and what is left taken there again.
fn back_and_there<R: Print>(
    rt: &R,
    run: Run,
    p: Generated,
    planes: &mut PlanesMut,
) -> io::Result<()> {
    let back = AnswerText(run.inverse(planes));
    println!(rt; "inverse {back}{}", PlanesText(planes.shared()))?;
    let there = AnswerText(run.forward(planes));
    let compared = p.compared(planes.shared());
    println!(rt; "forward {there} {compared}")
}

// The picture in the wrapped form, with the deepest depth for all planes: there and back, then back and there.
pub(crate) fn wrap<R: Print>(
    rt: &R,
    run: Run,
    p: Generated,
    planes: &mut PlanesMut,
) -> io::Result<()> {
    let settings = run.plan.settings;
    let depths = settings.depths;
    let depth = depths.c1.max(depths.c2).max(depths.c3);
    let wrapped = Run {
        plan: Plan {
            settings: Settings {
                depths: each(depth),
                ..settings
            },
            form: Form::Wrapped,
            ..run.plan
        },
        ..run
    };
    println!(rt; "wrapped to bits {depth}")?;
    there_and_back(rt, wrapped, p, planes)?;
    back_and_there(rt, wrapped, p, planes)
}
