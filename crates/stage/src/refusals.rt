// A refusal's number, and a test that ends a call with one.
ghost use Rattle.std.specs.Prelude.{◌≡◌, ◌++◌, cond, codes, Some, Ok, Err};
ghost use Rattle.std.specs.Fmt.{decimal};
ghost use Rattle.stage.specs.Answers.{number_of};

use crate::Refusal;
use std::error::Error;
use std::fmt;

impl Refusal {
    // A method and no `From`: its promise names the definition.
    pub fn number(self) -> u32
        ensures { result ≡ number_of self }
    {
        self as u32
    }
}

impl fmt::Display for Refusal {
    ghost output = { λ e. Some (codes "refused " ++ decimal (number_of e)) };

    fn fmt<W: fmt::Write>(&self, f: &mut fmt::Formatter<W>) -> fmt::Result {
        write!(f, "refused {}", self.number())
    }
}

impl Error for Refusal {}

// A test of what a call is lent: `require(test, refusal)?` goes on where it holds.
pub fn require(holds: bool, refusal: Refusal) -> Result<(), Refusal>
    ensures { result ≡ cond holds (Ok tt) (Err refusal) }
{
    if holds { Ok(()) } else { Err(refusal) }
}
