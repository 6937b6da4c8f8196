// What the calling program, or whoever made the samples, can get wrong, in 01's order. Of lent memory the lengths alone are told.
ghost use Rattle.std.specs.Prelude.{◌≡◌};
ghost use Rattle.stage.specs.Answers.{refusal, number, reply_of};
ghost use Rattle.stage.specs.Planes.{samples};
ghost use Rattle.stage.specs.Settings.{Allowed};
ghost use Rattle.stage.specs.Search.{counters_fit, all_at_least, scratch_fits, scratch_tests};
ghost use Rattle.search.specs.Calls.{estimate_tests, search_tests};

use lifting::passes::places;
use ranges::{counters_needed, is_picture};
use stage::{Bands, Plan, Planes, Refusal, Settings, Triple, is_between, require};
use transform::settings::{check, choices_fit};

fn counters_fit(settings: Settings, counters: usize) -> bool
    requires { Allowed settings }
    ensures { result ≡ counters_fit settings counters }
{
    counters_needed(settings.depths, settings.transform) as usize <= counters
}

// Whether each trial plane has room for n numbers.
fn planes_fit(n: usize, trials: Triple<usize>) -> bool
    ensures { result ≡ all_at_least n trials }
{
    (n <= trials.c1) & ((n <= trials.c2) & (n <= trials.c3))
}

// The tests up to 9. `choices` says whether the call's own test of the choices holds.
pub fn check_scratch(
    settings: Settings,
    choices: bool,
    lengths: Triple<usize>,
    trials: Triple<usize>,
    counters: usize,
) -> Result<(), Refusal>
    ensures { number (reply_of result) ≡ refusal (scratch_tests settings choices lengths (scratch_fits settings trials counters)) }
{
    check(Plan::from(settings), choices, lengths)?;
    let fits = planes_fit(lengths.c1, trials) & counters_fit(settings, counters);
    require(fits, Refusal::Scratch)
}

// The tests of an estimate: 2, 5, 6, 7, 8, 9, 11.
pub fn check_estimate(
    settings: Settings,
    choices: &[u8],
    picture: Planes,
    trials: Triple<usize>,
    counters: usize,
) -> Result<(), Refusal>
    ensures { number (reply_of result) ≡ refusal (estimate_tests settings choices.now (samples picture.entry) (scratch_fits settings trials counters)) }
{
    let fit = choices_fit(settings, Bands::One, choices);
    check_scratch(settings, fit, picture.lengths(), trials, counters)?;
    require(is_picture(settings, picture), Refusal::Sample)
}

// The tests of a search that is lent so many choices: as above, and 10 for the rounds before 11.
pub fn check_search(
    settings: Settings,
    rounds: u32,
    choices: usize,
    picture: Planes,
    trials: Triple<usize>,
    counters: usize,
) -> Result<(), Refusal>
    ensures { number (reply_of result) ≡ refusal (search_tests settings rounds choices (samples picture.entry) (scratch_fits settings trials counters)) }
{
    let fit = choices == places(settings.transform);
    check_scratch(settings, fit, picture.lengths(), trials, counters)?;
    require(is_between(1, 4, rounds), Refusal::Rounds)?;
    require(is_picture(settings, picture), Refusal::Sample)
}
