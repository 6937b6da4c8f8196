// Pieces of the lines that the programs of cases print.
#![tactic(auto)]

ghost use Rattle.std.specs.Prelude.{Some, codes};
ghost use Rattle.case_text.specs.Lines.{numbers_text, separated, settings_text};

use stage::{Settings, Triple};
use std::fmt;

// A run's settings.
#[derive(Clone, Copy)]
pub struct SettingsText(pub Settings);

impl fmt::Display for SettingsText {
    ghost output = { λ t. Some (settings_text t.0) };

    fn fmt<W: fmt::Write>(&self, f: &mut fmt::Formatter<W>) -> fmt::Result {
        let Settings {
            width,
            height,
            depths: Triple { c1, c2, c3 },
            transform,
        } = self.0;
        write!(
            f,
            "transform {transform} width {width} height {height} depths {c1} {c2} {c3}"
        )
    }
}

// Filters behind a blank, with commas between.
#[derive(Clone, Copy)]
pub struct FiltersText<'a>(pub &'a [u8]);

impl fmt::Display for FiltersText<'_> {
    ghost output = { λ t. Some (separated (codes " ") t.0.now) };

    fn fmt<W: fmt::Write>(&self, f: &mut fmt::Formatter<W>) -> fmt::Result {
        let mut separator = " ";
        for filter in self.0 {
            write!(f, "{separator}{filter}")?;
            separator = ",";
        }
        Ok(())
    }
}

// Numbers, each behind a blank.
#[derive(Clone, Copy)]
pub struct NumbersText<'a>(pub &'a [i32]);

impl fmt::Display for NumbersText<'_> {
    ghost output = { λ t. Some (numbers_text t.0.now) };

    fn fmt<W: fmt::Write>(&self, f: &mut fmt::Formatter<W>) -> fmt::Result {
        for z in self.0 {
            write!(f, " {z}")?;
        }
        Ok(())
    }
}
