// A generated picture through the calls, and whether it comes back.
ghost use Rattle.stage.specs.Settings.{UpTo16};

use crate::Run;
use crate::text::{AnswerText, PlanesText};
use case_pictures::{Generator, Levels};
use stage::{Depths, Planes, PlanesMut, Triple};
use std::io;

// The generator before each plane of a picture, and how many values the plane's samples have.
#[derive(Clone, Copy)]
pub(crate) struct Generated {
    from: Triple<Generator>,
    levels: Triple<Levels>,
}

impl Generated {
    // Fills planes with the picture of a number.
    pub(crate) fn fill(number: u32, depths: Depths, planes: &mut PlanesMut) -> Generated
        requires { UpTo16 depths }
    {
        let levels = Triple {
            c1: Levels::of(depths.c1),
            c2: Levels::of(depths.c2),
            c3: Levels::of(depths.c3),
        };
        let mut generator = Generator { x: number };
        let c1 = generator;
        generator.fill(planes.c1, levels.c1);
        let c2 = generator;
        generator.fill(planes.c2, levels.c2);
        let c3 = generator;
        generator.fill(planes.c3, levels.c3);
        Generated {
            from: Triple { c1, c2, c3 },
            levels,
        }
    }

    // Whether planes hold the picture.
    pub(crate) fn compared(self, planes: Planes) -> &'static str {
        let first = self.from.c1.has_filled(planes.c1, self.levels.c1);
        let second = self.from.c2.has_filled(planes.c2, self.levels.c2);
        let third = self.from.c3.has_filled(planes.c3, self.levels.c3);
        if first & second & third {
            "the picture"
        } else {
            "another picture"
        }
    }
}

pub(crate) fn undo<R: Print>(
    rt: &R,
    run: Run,
    p: Generated,
    planes: &mut PlanesMut,
) -> io::Result<()> {
    let answer = AnswerText(run.inverse(planes));
    let compared = p.compared(planes.shared());
    println!(rt; "inverse {answer} {compared}")
}

pub(crate) fn there_and_back<R: Print>(
    rt: &R,
    run: Run,
    p: Generated,
    planes: &mut PlanesMut,
) -> io::Result<()> {
    let answer = AnswerText(run.forward(planes));
    println!(rt; "forward {answer}{}", PlanesText(planes.shared()))?;
    undo(rt, run, p, planes)
}
