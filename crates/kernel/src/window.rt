// The filtered value of one sample. At the border every sample is offset by 2^19 first, so that all sums are unsigned.
ghost use Rattle.std.specs.Prelude.{ℕ, ◌+◌, ◌*◌, List, ℤ, pos, ◌*ℤ◌};
ghost use Rattle.integers.specs.Lists.{at};
ghost use Rattle.kernel.specs.Window.{Windows, MeanWindows, RowWindow, SampleWindow, ValueIn, Offset};
ghost use Rattle.kernel.specs.Window.{three_sum, neighbour_sum, one_if, row_sum, window_mean};

use crate::centre::{Centre, fixed_quotient};

// What a filter makes of the window of a sample.
pub trait Window: Copy {
    // that the window of an index lies in a plane, and the filtered value there
    ghost inside: { Self → List ℤ → ℕ → Type 0 };

    ghost value: { Self → List ℤ → ℕ → ℤ };

    fn at(self, plane: &[i32], i: usize) -> i32
        requires { inside self plane.now i }
        ensures { ValueIn 524288 (value self plane.now i) result };
}

// Filter 0 gives the sample itself.
#[derive(Clone, Copy, Debug, PartialEq, Eq)]
pub struct Itself;

impl Window for Itself {
    ghost inside = { λ s a i. SampleWindow i a };

    ghost value = { λ s. at };

    fn at(self, plane: &[i32], i: usize) -> i32 {
        plane[i]
    }
}

// Filter 12 gives 0.
#[derive(Clone, Copy, Debug, PartialEq, Eq)]
pub struct Nothing;

impl Window for Nothing {
    ghost inside = { λ s a i. SampleWindow i a };

    ghost value = { λ s a i. pos 0 };

    fn at(self, _plane: &[i32], _i: usize) -> i32 {
        0
    }
}

// The whole windows of samples away from the borders.
#[derive(Clone, Copy, Debug, PartialEq, Eq)]
pub struct Whole {
    pub width: usize,
    pub centre: Centre,
}

// The windows of samples that have a column to the left or not, and to the right, and a row above and below.
#[derive(Clone, Copy, Debug, PartialEq, Eq)]
pub struct Border {
    pub width: usize,
    pub centre: Centre,
    pub left: bool,
    pub right: bool,
    pub above: bool,
    pub below: bool,
}

const OFFSET: i32 = 524288;

fn offset_sample(plane: &[i32], i: usize) -> u32
    requires { SampleWindow i plane.now }
    ensures { Offset 1 (at plane.now i) result }
{
    (plane[i] + OFFSET) as u32
}

// The sample at index i and its neighbours on both sides.
fn three_sum(plane: &[i32], i: usize) -> i32
    requires { RowWindow 1 1 i plane.now }
    ensures { ValueIn 1572864 (three_sum plane.now i) result }
{
    plane[i - 1] + plane[i] + plane[i + 1]
}

// The eight neighbours of an interior sample.
fn neighbour_sum(plane: &[i32], width: usize, i: usize) -> i32
    requires { Windows width 1 1 1 1 i (i + 1) plane.now }
    ensures { ValueIn 4194304 (neighbour_sum width plane.now i) result }
{
    three_sum(plane, i - width) + plane[i - 1] + plane[i + 1] + three_sum(plane, i + width)
}

// The mean of a whole window. With weight k of the sample s, full weight d and b = s − 2^23 / k, the window's sum is
// d b + (neighbours − 8 b + 2^23), where what stands in brackets is not negative: the mean is b and a division of that.
impl Window for Whole {
    ghost inside = { λ s a i. MeanWindows s.centre s.width 1 1 1 1 i (i + 1) a };

    ghost value = { λ s. window_mean s.width 1 1 1 1 s.centre.weight };

    fn at(self, plane: &[i32], i: usize) -> i32 {
        let centre = self.centre;
        let d = 8 + centre.weight;
        let base = 8 * (plane[i] - (centre.offset as i32));
        let rest = neighbour_sum(plane, self.width, i) - base + ((8388608 + d / 2) as i32);
        (base + (fixed_quotient(rest as u32, d, centre.reciprocal) as i32)) >> 3
    }
}

// The sample at index i, or nothing.
fn sample_if(present: bool, plane: &[i32], i: usize) -> u32
    requires { SampleWindow i plane.now }
    ensures { Offset (one_if present) (pos (one_if present) *ℤ at plane.now i) result }
{
    if present { offset_sample(plane, i) } else { 0 }
}

impl Border {
    // The sample at index i and those of its left and right neighbours that are present.
    fn row_sum(self, plane: &[i32], i: usize) -> u32
        requires { RowWindow (one_if self.left) (one_if self.right) i plane.now }
        ensures { Offset (one_if self.left + 1 + one_if self.right) (row_sum plane.now i (one_if self.left) (one_if self.right)) result }
    {
        sample_if(self.left, plane, i - self.left as usize)
            + offset_sample(plane, i)
            + sample_if(self.right, plane, i + self.right as usize)
    }

    // The same, or nothing.
    fn row_sum_if(self, present: bool, plane: &[i32], i: usize) -> u32
        requires { RowWindow (one_if self.left) (one_if self.right) i plane.now }
        ensures { Offset (one_if present * (one_if self.left + 1 + one_if self.right)) (pos (one_if present) *ℤ row_sum plane.now i (one_if self.left) (one_if self.right)) result }
    {
        if present { self.row_sum(plane, i) } else { 0 }
    }
}

// The mean of the window's positions that are present.
impl Window for Border {
    ghost inside = { λ s a i. MeanWindows s.centre s.width (one_if s.left) (one_if s.right) (one_if s.above) (one_if s.below) i (i + 1) a };

    ghost value = { λ s. window_mean s.width (one_if s.left) (one_if s.right) (one_if s.above) (one_if s.below) s.centre.weight };

    fn at(self, plane: &[i32], i: usize) -> i32 {
        let extra = self.centre.weight - 1;
        let columns = self.left as u32 + 1 + self.right as u32;
        let rows = self.above as u32 + 1 + self.below as u32;
        let weight = rows * columns + extra;
        let sum = self.row_sum(plane, i)
            + extra * offset_sample(plane, i)
            + self.row_sum_if(self.above, plane, i - self.above as usize * self.width)
            + self.row_sum_if(self.below, plane, i + self.below as usize * self.width);
        (((sum + weight / 2) / weight) as i32) - OFFSET
    }
}
