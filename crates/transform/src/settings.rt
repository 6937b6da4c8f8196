// What the calling program can get wrong, in the papers' order, from numbers and lengths alone.
ghost use Rattle.std.specs.Prelude.{◌≡◌, ◌<◌, leb};
ghost use Rattle.std.specs.List.{list_all};
ghost use Rattle.stage.specs.Answers.{refusal, number, reply_of};
ghost use Rattle.stage.specs.Settings.{band_count};
ghost use Rattle.stage.specs.Transform.{choice_count, choices_fit, settings_tests};

use lifting::passes::places;
use stage::{
    Bands, Plan, Refusal, Settings, Triple, all_equal, are_depths, bands_suit, depths_suit,
    is_sized, require,
};

// How many bands of so many rows a picture has, the last one perhaps shorter; none where a band has no row.
fn band_count(rows: u32, height: u32) -> usize
    ensures { (result ≡ band_count rows height) × (result < 8589934592) }
{
    if rows == 0 {
        return 0;
    }
    (height as usize).div_ceil(rows as usize)
}

// How many choices there are to be: one for each place, in each band.
fn choice_count(settings: Settings, bands: Bands) -> usize
    ensures { result ≡ choice_count bands settings }
{
    let n = places(settings.transform);
    match bands {
        Bands::One => n,
        Bands::Of(rows) => n * band_count(rows, settings.height),
    }
}

// Whether none is above 12.
fn are_filters(choices: &[u8]) -> bool
    ensures { result ≡ list_all (λ f. leb f 12) choices.now }
{
    choices.iter().all(|choice| *choice <= 12)
}

// Whether there are so many choices, none above 12. Where their number is another none is looked at, however many they are.
#[tactic(auto, using(crate::proofs::Refusals::filters_all))]
pub fn choices_fit(settings: Settings, bands: Bands, choices: &[u8]) -> bool
    ensures { result ≡ choices_fit bands settings choices.now }
{
    choices.len() == choice_count(settings, bands) && are_filters(choices)
}

// The settings' tests. `choices` says whether the call's own test of the choices holds; `lengths` are those of the planes.
pub fn check(plan: Plan, choices: bool, lengths: Triple<usize>) -> Result<(), Refusal>
    ensures { number (reply_of result) ≡ refusal (settings_tests plan.form plan.bands plan.settings choices lengths) }
{
    let settings = plan.settings;
    let form = plan.form;
    let bands = plan.bands;
    let pixels = settings.width as usize * settings.height as usize;
    require(is_sized(settings.width, settings.height), Refusal::Size)?;
    require(are_depths(settings.depths), Refusal::Depth)?;
    require(depths_suit(form, settings.depths), Refusal::Unequal)?;
    require(settings.transform <= 3, Refusal::Transform)?;
    require(bands_suit(bands, settings.height), Refusal::Band)?;
    require(choices, Refusal::Choices)?;
    require(all_equal(pixels, lengths), Refusal::Plane)
}
