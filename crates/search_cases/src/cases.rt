// Searches of 1 to 4 rounds and estimates, of noise, slopes and single colours, from one sample to more than are counted.
ghost use Rattle.std.specs.Prelude.{◌≤◌};

use crate::picture::Slope;
use crate::text::AnswerText;
use case_pictures::choices;
use case_text::{FiltersText, SettingsText};
use stage::{Depths, Estimated, Planes, Refusal, Settings, Triple, each};
use std::io;

// Scratch for 5,000 samples and depth 8. What it holds does not matter. The search and the estimate take different arguments over the same scratch.
fn searched(
    settings: Settings,
    rounds: u32,
    choices: &mut [u8],
    picture: Planes,
) -> Result<Estimated, Refusal> {
    let mut trials = Triple {
        c1: &mut [7i32; 5000][..],
        c2: &mut [7i32; 5000][..],
        c3: &mut [7i32; 5000][..],
    };
    let mut counters = [7u32; 1785];
    search::search(
        settings,
        rounds,
        choices,
        picture,
        &mut trials,
        &mut counters,
    )
}

fn estimated(settings: Settings, choices: &[u8], picture: Planes) -> Result<Estimated, Refusal> {
    let mut trials = Triple {
        c1: &mut [7i32; 5000][..],
        c2: &mut [7i32; 5000][..],
        c3: &mut [7i32; 5000][..],
    };
    let mut counters = [7u32; 1785];
    search::estimate(settings, choices, picture, &mut trials, &mut counters)
}

// What the choices hold before the search does not matter either, so the estimate's are lent to it.
fn show<R: Print>(
    rt: &R,
    settings: Settings,
    rounds: u32,
    choices: &mut [u8],
    picture: Planes,
) -> io::Result<()> {
    let answer = AnswerText(estimated(settings, choices, picture));
    println!(rt; "estimate{} {answer}", FiltersText(&*choices))?;
    let answer = AnswerText(searched(settings, rounds, choices, picture));
    println!(rt; "search{} {answer}", FiltersText(&*choices))
}

// A slope of n samples.
fn lend<R: Print>(
    rt: &R,
    settings: Settings,
    rounds: u32,
    choices: &mut [u8],
    slope: Slope,
    n: usize,
) -> io::Result<()>
    requires { n ≤ 5000 }
{
    let mut c1 = [0i32; 5000];
    let mut c2 = [0i32; 5000];
    let mut c3 = [0i32; 5000];
    let mut planes = Triple {
        c1: &mut c1[..n],
        c2: &mut c2[..n],
        c3: &mut c3[..n],
    };
    slope.fill(&mut planes);
    show(rt, settings, rounds, choices, planes.shared())
}

// With as many choices as the transform has places.
fn choose<R: Print>(
    rt: &R,
    settings: Settings,
    rounds: u32,
    slope: Slope,
    n: usize,
) -> io::Result<()>
    requires { n ≤ 5000 }
{
    let told = SettingsText(settings);
    println!(rt; "{told} {slope} rounds {rounds}")?;
    let mut choices = choices(slope.seed);
    // a transform that is refused is printed with four filters
    let places = match settings.transform {
        2 => 2,
        3 => 3,
        _ => 4,
    };
    lend(rt, settings, rounds, &mut choices[..places], slope, n)
}

// Noise and step: noise, one colour, a slope with a little noise, a steep slope, and a steep slope with noise.
static SLOPES: [(u32, u32); 5] = [(65536, 0), (1, 0), (2, 1), (1, 3), (9, 5)];

// Width and height.
static SIZES: [(u32, u32); 9] = [
    (1, 1),
    (2, 1),
    (1, 9),
    (3, 3),
    (16, 11),
    (40, 30),
    (64, 64),
    (17, 241),
    (100, 50),
];

fn case<R: Print>(rt: &R, k: u32) -> io::Result<()>
    requires { k ≤ 65536 }
{
    let (width, height) = SIZES[(k % 9) as usize];
    let depths = Triple {
        c1: 2 + k % 7,
        c2: 8 - k % 7,
        c3: 2 + k / 4 % 7,
    };
    let settings = Settings {
        width,
        height,
        depths,
        transform: k % 4,
    };
    let (noise, step) = SLOPES[(k % 5) as usize];
    let slope = Slope {
        depths,
        noise,
        step,
        seed: k,
    };
    choose(
        rt,
        settings,
        1 + k / 4 % 4,
        slope,
        (width * height) as usize,
    )
}

// A picture of nine samples and depth 8 with other settings.
fn refusal<R: Print>(
    rt: &R,
    width: u32,
    height: u32,
    depths: Depths,
    transform: u32,
    rounds: u32,
) -> io::Result<()> {
    let settings = Settings {
        width,
        height,
        depths,
        transform,
    };
    let slope = Slope {
        depths: each(8),
        noise: 65536,
        step: 0,
        seed: 1,
    };
    choose(rt, settings, rounds, slope, 9)
}

// A size, a depth and a transform past the limits, planes of another length, too few counters, rounds past the limits, and samples
// past a plane's highest.
pub(crate) fn refusals<R: Print>(rt: &R) -> io::Result<()> {
    let deep = Depths { c3: 17, ..each(8) };
    let shallow = Depths { c2: 7, ..each(8) };
    refusal(rt, 0, 3, each(8), 0, 1)?;
    refusal(rt, 3, 3, deep, 0, 1)?;
    refusal(rt, 3, 3, each(8), 4, 1)?;
    refusal(rt, 3, 4, each(8), 0, 1)?;
    refusal(rt, 3, 3, each(9), 1, 1)?;
    refusal(rt, 3, 3, each(8), 0, 0)?;
    refusal(rt, 3, 3, each(8), 0, 5)?;
    refusal(rt, 3, 3, shallow, 0, 1)
}

// Every kind of picture with every size.
pub(crate) fn cases<R: Print>(rt: &R) -> io::Result<()> {
    for k in 0..45 {
        case(rt, k)?;
    }
    Ok(())
}
