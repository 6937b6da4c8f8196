// Pieces of the lines that are printed.
use crate::Run;
use case_text::{FiltersText, NumbersText, SettingsText};
use stage::{Bands, Form, Planes, Refusal};
use std::fmt;

// The settings and filters of a run.
impl fmt::Display for Run<'_> {
    fn fmt<W: fmt::Write>(&self, f: &mut fmt::Formatter<W>) -> fmt::Result {
        let settings = SettingsText(self.plan.settings);
        let filters = FiltersText(self.choices);
        write!(f, "{settings} filters{filters}")
    }
}

#[derive(Clone, Copy)]
pub(crate) struct PlanesText<'a>(pub(crate) Planes<'a>);

impl fmt::Display for PlanesText<'_> {
    fn fmt<W: fmt::Write>(&self, f: &mut fmt::Formatter<W>) -> fmt::Result {
        let c1 = NumbersText(self.0.c1);
        let c2 = NumbersText(self.0.c2);
        let c3 = NumbersText(self.0.c3);
        write!(f, "{c1} /{c2} /{c3}")
    }
}

// How many rows a band has, where there are bands.
#[derive(Clone, Copy)]
pub(crate) struct BandsText(pub(crate) Bands);

impl fmt::Display for BandsText {
    fn fmt<W: fmt::Write>(&self, f: &mut fmt::Formatter<W>) -> fmt::Result {
        match self.0 {
            Bands::One => Ok(()),
            Bands::Of(rows) => write!(f, " bands of {rows}"),
        }
    }
}

// The wrapped form is told, the plain one is not.
#[derive(Clone, Copy)]
pub(crate) struct FormText(pub(crate) Form);

impl fmt::Display for FormText {
    fn fmt<W: fmt::Write>(&self, f: &mut fmt::Formatter<W>) -> fmt::Result {
        match self.0 {
            Form::Plain => Ok(()),
            Form::Wrapped => write!(f, " wrapped"),
        }
    }
}

// What a call answers. `search_cases` has one of its own: the two print two kinds of answers.
#[derive(Clone, Copy)]
pub(crate) struct AnswerText(pub(crate) Result<(), Refusal>);

impl fmt::Display for AnswerText {
    fn fmt<W: fmt::Write>(&self, f: &mut fmt::Formatter<W>) -> fmt::Result {
        match self.0 {
            Ok(()) => write!(f, "done"),
            Err(refusal) => write!(f, "{refusal}"),
        }
    }
}
