// The passes over a plane: what each makes of a sample c with the filtered value f of another plane, and how that is kept. `applied` of
// specs/Pass.antt is the definition.
ghost use Rattle.std.specs.Prelude.{◌≡◌, ◌^◌, pos};
ghost use Rattle.integers.specs.Parts.{In, floor_div, floor_mod};
ghost use Rattle.kernel.specs.Pass.{Operands, Applicable, made, applied};
ghost use Rattle.kernel.specs.Window.{ValueIn};

use stage::Form;

#[derive(Clone, Copy, Debug, PartialEq, Eq)]
pub enum Lift {
    // c + f, c − f, −c + f
    Add,
    Subtract,
    Negate,
    // c + ⌊f / 2⌋, c − ⌊f / 2⌋
    AddHalf,
    SubtractHalf,
    // 4c + f, 4c − f
    FourfoldAdd,
    FourfoldSubtract,
    // ⌊(c + f) / 4⌋, ⌊(c − f + 3) / 4⌋
    QuarterAdd,
    QuarterSubtract,
}

// What a pass makes of a sample, and how that is kept: as it is, or wrapped to the depth's bits.
#[derive(Clone, Copy, Debug, PartialEq, Eq)]
pub struct KeptPass {
    pub lift: Lift,
    pub form: Form,
    pub depth: u32,
}

// f / 2 rounded down, also below zero
fn half(f: i32) -> i32
    requires { In 524288 524288 f }
    ensures { ValueIn 524288 (floor_div f 2) result }
{
    f >> 1
}

// The lowest 16 bits, also below zero: 2^25 more makes every number that a pass meets positive and leaves those bits as they are.
fn low_bits(x: i32) -> u16
    requires { In 33554432 33554432 x }
    ensures { floor_mod x (2 ^ 16) ≡ pos result }
{
    (((x + 33554432) as u32) & 65535) as u16
}

impl Lift {
    // The result as it is.
    fn result(self, c: i32, f: i32) -> i32
        requires { Operands c f }
        ensures { result ≡ made self c f }
    {
        match self {
            Lift::Add => c + f,
            Lift::Subtract => c - f,
            Lift::Negate => f - c,
            Lift::AddHalf => c + half(f),
            Lift::SubtractHalf => c - half(f),
            Lift::FourfoldAdd => 4 * c + f,
            Lift::FourfoldSubtract => 4 * c - f,
            Lift::QuarterAdd => (c + f) >> 2,
            Lift::QuarterSubtract => (c - f + 3) >> 2,
        }
    }

    // The result modulo 2^16. A quarter is taken of the whole sum, and only then reduced.
    fn wrapped_result(self, c: i32, f: i32) -> u16
        requires { Operands c f }
        ensures { floor_mod (made self c f) (2 ^ 16) ≡ pos result }
    {
        let sample = low_bits(c);
        let value = low_bits(f);
        let halved = low_bits(half(f));
        match self {
            Lift::Add => sample.wrapping_add(value),
            Lift::Subtract => sample.wrapping_sub(value),
            Lift::Negate => value.wrapping_sub(sample),
            Lift::AddHalf => sample.wrapping_add(halved),
            Lift::SubtractHalf => sample.wrapping_sub(halved),
            _ => low_bits(self.result(c, f)),
        }
    }
}

impl KeptPass {
    // The result as the form keeps it: as it is, or of its lowest 16 bits those of the depth. The mask has 32 bits, as samples have, so that
    // no lane changes its width.
    #[inline(always)]
    pub fn apply(self, c: i32, f: i32) -> i32
        requires { Applicable self c f }
        ensures { result ≡ applied self c f }
    {
        match self.form {
            Form::Plain => self.lift.result(c, f),
            Form::Wrapped => {
                ((self.lift.wrapped_result(c, f) as u32) & (65535 >> (16 - self.depth))) as i32
            }
        }
    }
}
