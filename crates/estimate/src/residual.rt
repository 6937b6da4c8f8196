// Predictions, residuals, and how often each occurs.
ghost use Rattle.std.specs.Prelude.{◌≡◌, ◌+◌, ◌<◌, ◌≤◌, ◌%◌, length};
ghost use Rattle.integers.specs.Parts.{In};
ghost use Rattle.integers.specs.Lists.{AllIn};
ghost use Rattle.stage.specs.Estimate.{med, prediction, residual, counted, counted_residual};
ghost use Rattle.estimate.specs.Counting.{Countable, Inside, Counters, bin, Holds, Occurrences};

// A sample's index, and whether it lies in the first row, and in the first column.
#[derive(Clone, Copy, Debug, PartialEq, Eq)]
struct Sample {
    index: usize,
    top: bool,
    start: bool,
}

// MED of left a, above e and above-left c, as the median of a, e and a + e − c: it needs no branch.
fn med(a: i32, e: i32, c: i32) -> i32
    requires left_in { In 262144 262144 a }
    requires above_in { In 262144 262144 e }
    requires corner_in { In 262144 262144 c }
    ensures { result ≡ med a e c }
{
    a.min(e).max(a.max(e).min(a + e - c))
}

fn prediction(plane: &[i32], width: usize, sample: Sample) -> i32
    requires le_width { 1 ≤ width }
    requires all_in { AllIn 262144 262144 plane.now }
    requires inside { Inside width plane.now sample }
    ensures { result ≡ prediction width plane.now sample.index }
{
    let i = sample.index;
    if sample.top {
        if i == 0 {
            return 0;
        }
        return plane[i - 1];
    }
    if sample.start {
        return plane[i - width];
    }
    med(plane[i - 1], plane[i - width], plane[i - width - 1])
}

// The counter of a sample's residual.
fn bin(plane: &[i32], width: usize, d: u32, sample: Sample) -> u32
    requires countable { Countable width d plane.now }
    requires inside { Inside width plane.now sample }
    ensures { result ≡ bin d (residual width plane.now sample.index) }
{
    let p = prediction(plane, width, sample);
    let z = plane[sample.index] - p;
    (z + (d as i32)) as u32
}

// x + step modulo m. A subtraction takes the place of a division.
fn add_modulo(x: usize, step: usize, m: usize) -> usize
    requires m_bound { m ≤ 274877906944 }
    requires x_lt_m { (x < m) × (step < m) }
    ensures { result ≡ (x + step) % m }
{
    let y = x + step;
    if y < m { y } else { y - m }
}

// The first pass: how often each of the counted residuals occurs, and the numbers of their counters, in order. Index and column
// advance by addition, in 4096ths of a sample: what is left of a division is a shift.
pub fn count(plane: &[i32], width: usize, d: u32, bins: &mut [u32], counters: &mut [u32])
    requires countable { Countable width d plane.now }
    requires n_value { length bins.old ≡ counted (length plane.now) }
    requires counters { Counters d counters.old }
    ensures holds { Holds (λ j. bin d (counted_residual width plane.now j)) (length bins.new) bins.new }
    ensures occurrences { Occurrences (λ j. bin d (counted_residual width plane.now j)) (length bins.new) counters.new }
{
    // how far apart the counted samples are, in 4096ths of a sample
    let every = plane.len().max(4096);
    let row = width * 4096;
    let step = every % row;
    let mut at: usize = 0;
    let mut across: usize = 0;
    for slot in bins.iter_mut() {
        let sample = Sample {
            index: at / 4096,
            top: at < row,
            start: across < 4096,
        };
        let x = bin(plane, width, d, sample);
        *slot = x;
        counters[x as usize] += 1;
        at += every;
        across = add_modulo(across, step, row);
    }
}
