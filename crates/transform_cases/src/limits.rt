// The limits that 01 names, from both sides, a case of each other refusal, and null steps, in both forms.
ghost use Rattle.std.specs.Prelude.{◌<◌};

use crate::Run;
use crate::text::{AnswerText, FormText, PlanesText};
use stage::{Bands, Depths, Form, Plan, PlanesMut, Settings, Triple, each};
use std::io;

fn settings(width: u32, height: u32, depths: Depths, transform: u32) -> Settings {
    Settings {
        width,
        height,
        depths,
        transform,
    }
}

fn without_bands(form: Form, settings: Settings, choices: &[u8]) -> Run {
    Run {
        plan: Plan {
            settings,
            form,
            bands: Bands::One,
        },
        choices,
    }
}

// Forward and, on what that leaves, back. Only the answers are printed.
fn answers<R: Print>(rt: &R, width: u32, height: u32, planes: &mut PlanesMut) -> io::Result<()> {
    for form in [Form::Plain, Form::Wrapped] {
        let run = without_bands(form, settings(width, height, each(8), 0), &[1; 4]);
        let there = AnswerText(run.forward(planes));
        let back = AnswerText(run.inverse(planes));
        println!(rt; "{run}{} forward {there} inverse {back}", FormText(form))?;
    }
    Ok(())
}

// One row and one column of N samples.
fn lines<R: Print, const N: usize>(rt: &R) -> io::Result<()>
    requires { N < 4294967296 }
{
    let mut c1 = [1i32; N];
    let mut c2 = [2i32; N];
    let mut c3 = [3i32; N];
    let mut planes = Triple {
        c1: &mut c1[..],
        c2: &mut c2[..],
        c3: &mut c3[..],
    };
    answers(rt, N as u32, 1, &mut planes)?;
    answers(rt, 1, N as u32, &mut planes)
}

fn there_and_back<R: Print>(rt: &R, run: Run, planes: &mut PlanesMut) -> io::Result<()> {
    print!(rt;
        "{run} planes{}{}",
        PlanesText(planes.shared()),
        FormText(run.plan.form)
    )?;
    let there = AnswerText(run.forward(planes));
    print!(rt; " forward {there}{}", PlanesText(planes.shared()))?;
    let back = AnswerText(run.inverse(planes));
    println!(rt; " inverse {back}{}", PlanesText(planes.shared()))
}

// Forward and back of one pixel.
fn pixel_in<R: Print>(rt: &R, run: Run, red: i32, green: i32, blue: i32) -> io::Result<()> {
    let mut planes = Triple {
        c1: &mut [red][..],
        c2: &mut [green][..],
        c3: &mut [blue][..],
    };
    there_and_back(rt, run, &mut planes)
}

fn pixel<R: Print>(
    rt: &R,
    s: Settings,
    choices: &[u8],
    red: i32,
    green: i32,
    blue: i32,
) -> io::Result<()> {
    for form in [Form::Plain, Form::Wrapped] {
        pixel_in(rt, without_bands(form, s, choices), red, green, blue)?;
    }
    Ok(())
}

// Depths past the limits, of all planes and of one.
fn other_depths<R: Print>(rt: &R) -> io::Result<()> {
    for (c1, c2, c3) in [
        (1, 1, 1),
        (2, 2, 2),
        (16, 16, 16),
        (17, 17, 17),
        (1, 8, 8),
        (8, 17, 8),
        (8, 8, 1),
    ] {
        let depths = Triple { c1, c2, c3 };
        pixel(rt, settings(1, 1, depths, 0), &[0; 4], 3, 1, 2)?;
    }
    Ok(())
}

fn other_samples<R: Print>(rt: &R) -> io::Result<()> {
    for (red, green, blue) in [(255, 0, 255), (256, 0, 255), (0, 256, 0), (0, 0, -1)] {
        pixel(rt, settings(1, 1, each(8), 0), &[0; 4], red, green, blue)?;
    }
    Ok(())
}

// Five, six and five bits: the highest samples, and one past the highest of each plane.
fn mobile<R: Print>(rt: &R) -> io::Result<()> {
    let depths = Triple {
        c1: 5,
        c2: 6,
        c3: 5,
    };
    for (red, green, blue) in [(31, 63, 31), (32, 63, 31), (31, 64, 31), (31, 32, 32)] {
        pixel(rt, settings(1, 1, depths, 0), &[0; 4], red, green, blue)?;
    }
    Ok(())
}

fn of_settings<R: Print>(
    rt: &R,
    width: u32,
    height: u32,
    transform: u32,
    choices: &[u8],
) -> io::Result<()> {
    let s = settings(width, height, each(8), transform);
    pixel(rt, s, choices, 10, 200, 60)
}

// Sizes of no sample and of two, a transform past the last, and choices too many, too few and too high, with the highest that pass.
fn other_settings<R: Print>(rt: &R) -> io::Result<()> {
    of_settings(rt, 0, 1, 0, &[0; 4])?;
    of_settings(rt, 1, 0, 0, &[0; 4])?;
    of_settings(rt, 2, 1, 0, &[0; 4])?;
    of_settings(rt, 1, 1, 4, &[0; 4])?;
    of_settings(rt, 1, 1, 2, &[0; 3])?;
    of_settings(rt, 1, 1, 3, &[0; 2])?;
    of_settings(rt, 1, 1, 2, &[12, 12])?;
    of_settings(rt, 1, 1, 2, &[12, 13])
}

// Steps whose places are all null, and steps with one null of two places.
fn null_steps<R: Print>(rt: &R) -> io::Result<()> {
    of_settings(rt, 1, 1, 3, &[12, 12, 12])?;
    of_settings(rt, 1, 1, 3, &[12, 0, 0])?;
    of_settings(rt, 1, 1, 2, &[12, 0])?;
    of_settings(rt, 1, 1, 2, &[0, 12])?;
    of_settings(rt, 1, 1, 0, &[0, 0, 12, 12])?;
    of_settings(rt, 1, 1, 0, &[0, 0, 12, 0])?;
    of_settings(rt, 1, 1, 0, &[0, 0, 0, 12])
}

pub(crate) fn limits<R: Print>(rt: &R) -> io::Result<()> {
    lines::<R, 8192>(rt)?;
    lines::<R, 8193>(rt)?;
    other_depths(rt)?;
    other_samples(rt)?;
    mobile(rt)?;
    other_settings(rt)?;
    null_steps(rt)
}
