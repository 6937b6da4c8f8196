// The samples of a raster, tested and read.
ghost use Rattle.std.specs.Prelude.{◌≡◌, ◌≤◌, pos, ◌-ℤ◌, leb};
ghost use Rattle.stage.specs.Raster.{sample_bytes, raster_samples};
ghost use Rattle.raster.specs.Samples.{highest, Fills, Filled};

use crate::samples::Sample;

pub fn sample_bytes(maxval: u32) -> u32
    ensures { result ≡ sample_bytes maxval }
{
    if maxval < 256 { 1 } else { 2 }
}

// The largest sample, and 0 where there is none.
#[tactic(auto, using(crate::proofs::Highest::none_highest, crate::proofs::Highest::highest_more))]
fn largest<T: Sample>(raster: &[u8]) -> u32
    ensures { result ≡ highest (T.samples raster.now) }
{
    let mut top = T::least();
    // by index: a sample of two bytes is read at its number
    for i in 0..T::count(raster) {
        top = top.larger(T::at(raster, i));
    }
    top.number() as u32
}

fn largest_at(raster: &[u8], maxval: u32) -> u32
    ensures { result ≡ highest (raster_samples maxval raster.now) }
{
    if maxval < 256 {
        largest::<u8>(raster)
    } else {
        largest::<u16>(raster)
    }
}

// Whether no sample is above maxval; none can be where that is the highest number of one byte or of two.
#[tactic(auto, using(crate::proofs::Highest::all_highest))]
pub fn all_up_to(raster: &[u8], maxval: u32) -> bool
    ensures { result ≡ leb (highest (raster_samples maxval raster.now)) maxval }
{
    if (maxval == 255) | (maxval == 65535) {
        return true;
    }
    largest_at(raster, maxval) <= maxval
}

// A sample less `below`.
fn less(n: u16, below: u32) -> i32
    requires { below ≤ 1073741824 }
    ensures { result ≡ pos n -ℤ pos below }
{
    n as i32 - below as i32
}

fn fill_from<T: Sample>(plane: &mut [i32], raster: &[u8], step: usize, offset: usize, below: u32)
    requires { Fills (T.samples raster.now) step offset below plane.old }
    ensures { Filled (T.samples raster.now) step offset below plane.old plane.new }
{
    for (i, z) in plane.iter_mut().enumerate() {
        *z = less(T::at(raster, step * i + offset).number(), below);
    }
}

// A plane becomes every `step`-th sample from `offset` on, less `below`.
pub fn fill(plane: &mut [i32], raster: &[u8], maxval: u32, step: usize, offset: usize, below: u32)
    requires { Fills (raster_samples maxval raster.now) step offset below plane.old }
    ensures { Filled (raster_samples maxval raster.now) step offset below plane.old plane.new }
{
    if maxval < 256 {
        fill_from::<u8>(plane, raster, step, offset, below);
    } else {
        fill_from::<u16>(plane, raster, step, offset, below);
    }
}
