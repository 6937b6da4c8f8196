// The calls `forward` and `inverse` of both forms, in bands or not: every transform of 01 there and back, in place. Without bands a picture is
// one band.
#![tactic(auto)]

ghost use Rattle.std.specs.Prelude.{◌≡◌};
ghost use Rattle.stage.specs.Answers.{refusal, number, reply_of};
ghost use Rattle.stage.specs.Planes.{samples, samples_mut, SameReferences};
ghost use Rattle.stage.specs.declared.Form.TheVariants.{Plain, Wrapped};
ghost use Rattle.transform.specs.Calls.{picture_tests, ForwardGives, InverseGives};

use lifting::passes::step_count;
use lifting::steps::{run_steps, undo_steps};
use ranges::{in_finished_ranges, is_picture};
use settings::{check, choices_fit};
use stage::{Form, Plan, Planes, PlanesMut, Refusal, require};

pub mod settings;

// The tests of a call that takes a picture: 2, 5, 16, 6, 17, 7, 8 of the settings, 11 of planes that hold none.
fn check_picture(plan: Plan, choices: &[u8], planes: Planes) -> Result<(), Refusal>
    ensures { number (reply_of result) ≡ refusal (picture_tests plan.form plan.bands plan.settings choices.now (samples planes.entry)) }
{
    let settings = plan.settings;
    let fit = choices_fit(settings, plan.bands, choices);
    check(plan, fit, planes.lengths())?;
    require(is_picture(settings, planes), Refusal::Sample)
}

// The planes that a picture goes to. Refused: 2, 5, 16 (wrapped), 6, 17 (in bands), 7, 8 for settings, 11 for planes that hold no picture.
pub fn forward(plan: Plan, choices: &[u8], planes: &mut PlanesMut) -> Result<(), Refusal>
    ensures same { SameReferences planes.old planes.new }
    ensures gives { ForwardGives plan.form plan.bands plan.settings choices.now (samples_mut planes.old) result (samples_mut planes.new) }
{
    check_picture(plan, choices, planes.shared())?;
    let to = step_count(plan.settings.transform);
    run_steps(planes, plan, choices, 0, to);
    Ok(())
}

// A wrapped form undone: `forward` with the steps undone, and another definition to promise. Every three planes of 0 to M have a picture.
fn undo_wrapped(plan: Plan, choices: &[u8], planes: &mut PlanesMut) -> Result<(), Refusal>
    requires { plan.form ≡ Wrapped }
    ensures same { SameReferences planes.old planes.new }
    ensures gives { InverseGives plan.form plan.bands plan.settings choices.now (samples_mut planes.old) result (samples_mut planes.new) }
{
    check_picture(plan, choices, planes.shared())?;
    let to = step_count(plan.settings.transform);
    undo_steps(planes, plan, choices, 0, to);
    Ok(())
}

// The plain forms undone, whatever form the plan has. Planes outside their ranges no picture goes to; of the others the steps are undone, and run
// again where that leaves no picture.
fn undo_plain(plan: Plan, choices: &[u8], planes: &mut PlanesMut) -> Result<(), Refusal>
    ensures same { SameReferences planes.old planes.new }
    ensures gives { InverseGives Plain plan.bands plan.settings choices.now (samples_mut planes.old) result (samples_mut planes.new) }
{
    let plain = Plan {
        form: Form::Plain,
        ..plan
    };
    let settings = plan.settings;
    let fit = choices_fit(settings, plan.bands, choices);
    check(plain, fit, planes.shared().lengths())?;
    require(
        in_finished_ranges(settings, planes.shared()),
        Refusal::Unreached,
    )?;
    let to = step_count(settings.transform);
    undo_steps(planes, plain, choices, 0, to);
    if is_picture(settings, planes.shared()) {
        return Ok(());
    }
    run_steps(planes, plain, choices, 0, to);
    Err(Refusal::Unreached)
}

// The picture that goes to these planes. Refused: the same settings, 12 for planes that no picture goes to. In the wrapped forms every three planes
// of 0 to M have a picture, so others are refused with 11, and no step has to be run again.
pub fn inverse(plan: Plan, choices: &[u8], planes: &mut PlanesMut) -> Result<(), Refusal>
    ensures same { SameReferences planes.old planes.new }
    ensures gives { InverseGives plan.form plan.bands plan.settings choices.now (samples_mut planes.old) result (samples_mut planes.new) }
{
    let form = plan.form;
    match form {
        Form::Plain => undo_plain(plan, choices, planes),
        Form::Wrapped => undo_wrapped(plan, choices, planes),
    }
}
