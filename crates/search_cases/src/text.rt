// Pieces of the lines that are printed.
use crate::picture::Slope;
use stage::{Estimated, Refusal};
use std::fmt;

impl fmt::Display for Slope {
    fn fmt<W: fmt::Write>(&self, f: &mut fmt::Formatter<W>) -> fmt::Result {
        let noise = self.noise;
        let step = self.step;
        let seed = self.seed;
        write!(f, "noise {noise} step {step} seed {seed}")
    }
}

// What a call answers. `transform_cases` has one of its own: the two print two kinds of answers.
#[derive(Clone, Copy)]
pub(crate) struct AnswerText(pub(crate) Result<Estimated, Refusal>);

impl fmt::Display for AnswerText {
    fn fmt<W: fmt::Write>(&self, f: &mut fmt::Formatter<W>) -> fmt::Result {
        match self.0 {
            Ok(Estimated { estimate, samples }) => {
                write!(f, "estimate {estimate} samples {samples}")
            }
            Err(refusal) => write!(f, "{refusal}"),
        }
    }
}
