// The transforms of both forms there and back: with one set of choices for the whole picture, and with one for each band of band_height rows, set
// after set from the top. C has no enum with a value, so it has a function for each form, with bands and without; these differ in the plan alone.
ghost use Rattle.std.specs.Prelude.{◌≡◌};
ghost use Rattle.stage.specs.declared.Bands.TheVariants.{One, Of};
ghost use Rattle.stage.specs.declared.Form.TheVariants.{Plain, Wrapped};
ghost use Rattle.stage.specs.Planes.{triple};
ghost use Rattle.stage.specs.Settings.{depths_of, settings_of, plan_of};
ghost use Rattle.stage.specs.Transform.{forward, inverse};
ghost use Rattle.rulantip.specs.Returned.{returned, numbered};

use crate::{number, settings};
use stage::{Bands, Form, Plan, Settings, Triple};

// Three values that C's names and numbers give: no conversion of one.
fn planned(settings: Settings, form: Form, bands: Bands) -> Plan
    ensures { result ≡ plan_of settings form bands }
{
    Plan {
        settings,
        form,
        bands,
    }
}

// C lends planes one by one. The two differ in the call, whose promises are two definitions.
fn run_forward(plan: Plan, choices: &[u8], c1: &mut [i32], c2: &mut [i32], c3: &mut [i32]) -> u32
    ensures { returned result (triple c1.new c2.new c3.new) ≡ numbered (forward plan.form plan.bands plan.settings choices.now (triple c1.old c2.old c3.old)) }
{
    let mut planes = Triple { c1, c2, c3 };
    number(transform::forward(plan, choices, &mut planes))
}

fn run_inverse(plan: Plan, choices: &[u8], c1: &mut [i32], c2: &mut [i32], c3: &mut [i32]) -> u32
    ensures { returned result (triple c1.new c2.new c3.new) ≡ numbered (inverse plan.form plan.bands plan.settings choices.now (triple c1.old c2.old c3.old)) }
{
    let mut planes = Triple { c1, c2, c3 };
    number(transform::inverse(plan, choices, &mut planes))
}

#[unsafe(no_mangle)]
pub extern "C" fn rulantip_forward(
    width: u32,
    height: u32,
    depth1: u32,
    depth2: u32,
    depth3: u32,
    transform: u32,
    choices: &[u8],
    c1: &mut [i32],
    c2: &mut [i32],
    c3: &mut [i32],
) -> u32
    ensures { returned result (triple c1.new c2.new c3.new) ≡ numbered (forward Plain One (settings_of width height (depths_of depth1 depth2 depth3) transform) choices.now (triple c1.old c2.old c3.old)) }
{
    let settings = settings(width, height, depth1, depth2, depth3, transform);
    let plan = planned(settings, Form::Plain, Bands::One);
    run_forward(plan, choices, c1, c2, c3)
}

#[unsafe(no_mangle)]
pub extern "C" fn rulantip_inverse(
    width: u32,
    height: u32,
    depth1: u32,
    depth2: u32,
    depth3: u32,
    transform: u32,
    choices: &[u8],
    c1: &mut [i32],
    c2: &mut [i32],
    c3: &mut [i32],
) -> u32
    ensures { returned result (triple c1.new c2.new c3.new) ≡ numbered (inverse Plain One (settings_of width height (depths_of depth1 depth2 depth3) transform) choices.now (triple c1.old c2.old c3.old)) }
{
    let settings = settings(width, height, depth1, depth2, depth3, transform);
    let plan = planned(settings, Form::Plain, Bands::One);
    run_inverse(plan, choices, c1, c2, c3)
}

#[unsafe(no_mangle)]
pub extern "C" fn rulantip_forward_wrapped(
    width: u32,
    height: u32,
    depth1: u32,
    depth2: u32,
    depth3: u32,
    transform: u32,
    choices: &[u8],
    c1: &mut [i32],
    c2: &mut [i32],
    c3: &mut [i32],
) -> u32
    ensures { returned result (triple c1.new c2.new c3.new) ≡ numbered (forward Wrapped One (settings_of width height (depths_of depth1 depth2 depth3) transform) choices.now (triple c1.old c2.old c3.old)) }
{
    let settings = settings(width, height, depth1, depth2, depth3, transform);
    let plan = planned(settings, Form::Wrapped, Bands::One);
    run_forward(plan, choices, c1, c2, c3)
}

#[unsafe(no_mangle)]
pub extern "C" fn rulantip_inverse_wrapped(
    width: u32,
    height: u32,
    depth1: u32,
    depth2: u32,
    depth3: u32,
    transform: u32,
    choices: &[u8],
    c1: &mut [i32],
    c2: &mut [i32],
    c3: &mut [i32],
) -> u32
    ensures { returned result (triple c1.new c2.new c3.new) ≡ numbered (inverse Wrapped One (settings_of width height (depths_of depth1 depth2 depth3) transform) choices.now (triple c1.old c2.old c3.old)) }
{
    let settings = settings(width, height, depth1, depth2, depth3, transform);
    let plan = planned(settings, Form::Wrapped, Bands::One);
    run_inverse(plan, choices, c1, c2, c3)
}

#[unsafe(no_mangle)]
pub extern "C" fn rulantip_forward_banded(
    width: u32,
    height: u32,
    depth1: u32,
    depth2: u32,
    depth3: u32,
    transform: u32,
    band_height: u32,
    choices: &[u8],
    c1: &mut [i32],
    c2: &mut [i32],
    c3: &mut [i32],
) -> u32
    ensures { returned result (triple c1.new c2.new c3.new) ≡ numbered (forward Plain (Of band_height) (settings_of width height (depths_of depth1 depth2 depth3) transform) choices.now (triple c1.old c2.old c3.old)) }
{
    let settings = settings(width, height, depth1, depth2, depth3, transform);
    let bands = Bands::Of(band_height);
    run_forward(planned(settings, Form::Plain, bands), choices, c1, c2, c3)
}

#[unsafe(no_mangle)]
pub extern "C" fn rulantip_inverse_banded(
    width: u32,
    height: u32,
    depth1: u32,
    depth2: u32,
    depth3: u32,
    transform: u32,
    band_height: u32,
    choices: &[u8],
    c1: &mut [i32],
    c2: &mut [i32],
    c3: &mut [i32],
) -> u32
    ensures { returned result (triple c1.new c2.new c3.new) ≡ numbered (inverse Plain (Of band_height) (settings_of width height (depths_of depth1 depth2 depth3) transform) choices.now (triple c1.old c2.old c3.old)) }
{
    let settings = settings(width, height, depth1, depth2, depth3, transform);
    let bands = Bands::Of(band_height);
    run_inverse(planned(settings, Form::Plain, bands), choices, c1, c2, c3)
}

#[unsafe(no_mangle)]
pub extern "C" fn rulantip_forward_wrapped_banded(
    width: u32,
    height: u32,
    depth1: u32,
    depth2: u32,
    depth3: u32,
    transform: u32,
    band_height: u32,
    choices: &[u8],
    c1: &mut [i32],
    c2: &mut [i32],
    c3: &mut [i32],
) -> u32
    ensures { returned result (triple c1.new c2.new c3.new) ≡ numbered (forward Wrapped (Of band_height) (settings_of width height (depths_of depth1 depth2 depth3) transform) choices.now (triple c1.old c2.old c3.old)) }
{
    let settings = settings(width, height, depth1, depth2, depth3, transform);
    let bands = Bands::Of(band_height);
    run_forward(planned(settings, Form::Wrapped, bands), choices, c1, c2, c3)
}

#[unsafe(no_mangle)]
pub extern "C" fn rulantip_inverse_wrapped_banded(
    width: u32,
    height: u32,
    depth1: u32,
    depth2: u32,
    depth3: u32,
    transform: u32,
    band_height: u32,
    choices: &[u8],
    c1: &mut [i32],
    c2: &mut [i32],
    c3: &mut [i32],
) -> u32
    ensures { returned result (triple c1.new c2.new c3.new) ≡ numbered (inverse Wrapped (Of band_height) (settings_of width height (depths_of depth1 depth2 depth3) transform) choices.now (triple c1.old c2.old c3.old)) }
{
    let settings = settings(width, height, depth1, depth2, depth3, transform);
    let bands = Bands::Of(band_height);
    run_inverse(planned(settings, Form::Wrapped, bands), choices, c1, c2, c3)
}
