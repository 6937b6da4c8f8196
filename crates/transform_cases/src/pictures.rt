// Generated pictures of small sizes over all transforms, with depths of 2 to 16 beside each other and each filter at each place, each with one set
// of choices and then in bands.
ghost use Rattle.std.specs.Prelude.{◌*◌, ◌≤◌};
ghost use Rattle.stage.specs.Settings.{UpTo16};

use crate::Run;
use crate::bands::{bands, sets};
use crate::generated::{Generated, there_and_back, undo};
use crate::text::{AnswerText, BandsText, PlanesText};
use crate::wrapped::wrap;
use case_pictures::choices;
use lifting::passes::places;
use stage::{Bands, Form, Plan, PlanesMut, Settings, Triple};
use std::{io, mem};

// Puts a number at an index and answers the number that stood there.
fn replace(plane: &mut [i32], i: usize, z: i32) -> i32 {
    match plane.get_mut(i) {
        Some(at) => mem::replace(at, z),
        None => z,
    }
}

fn replace_in(planes: &mut PlanesMut, plane: u32, i: usize, z: i32) -> i32 {
    match plane {
        1 => replace(planes.c1, i, z),
        2 => replace(planes.c2, i, z),
        _ => replace(planes.c3, i, z),
    }
}

// The inverse of damaged planes. What it accepts, as another picture goes there, is printed and run again.
fn undo_damaged<R: Print>(rt: &R, run: Run, planes: &mut PlanesMut) -> io::Result<()> {
    let back = run.inverse(planes);
    print!(rt; " inverse {}", AnswerText(back))?;
    if back.is_ok() {
        print!(rt; "{}", PlanesText(planes.shared()))?;
        print!(rt; " forward {}", AnswerText(run.forward(planes)))?;
    }
    println!(rt; "")
}

// Forward again; then the middle number of a finished plane is replaced by z, and put back when the inverse was tried.
fn damage<R: Print>(
    rt: &R,
    run: Run,
    planes: &mut PlanesMut,
    plane: u32,
    z: i32,
) -> io::Result<()> {
    let _ = run.forward(planes);
    let middle = planes.c1.len() / 2;
    print!(rt; "plane {plane} damaged by {z}")?;
    let old = replace_in(planes, plane, middle, z);
    undo_damaged(rt, run, planes)?;
    replace_in(planes, plane, middle, old);
    Ok(())
}

// In the plain form.
fn show<R: Print>(
    rt: &R,
    k: u32,
    run: Run,
    p: Generated,
    planes: &mut PlanesMut,
) -> io::Result<()> {
    println!(rt; "picture {k} {run}{}", BandsText(run.plan.bands))?;
    there_and_back(rt, run, p, planes)?;
    let z = [0, -1, 65535, i32::MIN][(k / 4 % 4) as usize];
    damage(rt, run, planes, 1 + k % 3, z)?;
    undo(rt, run, p, planes)
}

// The picture of a number.
fn lend<R: Print>(
    rt: &R,
    k: u32,
    bands: Bands,
    settings: Settings,
    choices: &[u8],
) -> io::Result<()>
    requires { UpTo16 settings.depths × (settings.width * settings.height ≤ 20) }
{
    let n = (settings.width * settings.height) as usize;
    let plan = Plan {
        settings,
        form: Form::Plain,
        bands,
    };
    let run = Run { plan, choices };
    let mut c1 = [0i32; 20];
    let mut c2 = [0i32; 20];
    let mut c3 = [0i32; 20];
    let mut planes = Triple {
        c1: &mut c1[..n],
        c2: &mut c2[..n],
        c3: &mut c3[..n],
    };
    let p = Generated::fill(k, settings.depths, &mut planes);
    show(rt, k, run, p, &mut planes)?;
    wrap(rt, run, p, &mut planes)
}

// With one set of choices, and with one for each band.
fn picture<R: Print>(rt: &R, k: u32, width: u32, height: u32) -> io::Result<()>
    requires { (k ≤ 52) × (width * height ≤ 20) }
{
    let settings = Settings {
        width,
        height,
        depths: Triple {
            c1: 2 + k % 15,
            c2: 16 - k % 15,
            c3: 2 + k / 4 % 15,
        },
        transform: k % 4,
    };
    let places = places(settings.transform);
    lend(rt, k, Bands::One, settings, &choices(k / 4)[..places])?;
    let (rows, count) = bands(height);
    let sets = sets(k, places as u32);
    lend(rt, k, Bands::Of(rows), settings, &sets[..places * count])
}

// Width and height.
static SIZES: [(u32, u32); 7] = [(1, 1), (1, 6), (7, 1), (2, 2), (3, 3), (5, 4), (4, 3)];

// Each transform with each filter at each of its places.
pub(crate) fn pictures<R: Print>(rt: &R) -> io::Result<()> {
    for k in 0..52 {
        let (width, height) = SIZES[(k % 7) as usize];
        picture(rt, k, width, height)?;
    }
    Ok(())
}
