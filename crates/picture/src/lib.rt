// A picture on file: its width, height, depth and lent raster, in one record. A function over the record only takes it apart
// and calls one over the slice.
#![tactic(auto)]

ghost use Rattle.std.specs.Prelude.{◌≡◌, ◌<◌, pos, length, get_or};
ghost use Rattle.stage.specs.Pixmap.{header_of, raster_of};
ghost use Rattle.picture.specs.OnFile.{numbers_of, samples_at, sample_of, PictureOf};

use stage::Header;

#[derive(Clone, Copy)]
pub struct Picture<'a> {
    pub width: u32,
    pub height: u32,
    pub depth: u32,
    pub raster: &'a [u8],
}

// The header's numbers, all 0 where it is refused.
fn header_numbers(file: &[u8]) -> Header
    ensures { result ≡ numbers_of (header_of file.now) }
{
    pixmap::header(file).unwrap_or(Header {
        width: 0,
        height: 0,
        depth: 0,
    })
}

// How many samples a raster has.
#[tactic(auto, using(crate::proofs::Samples::two_bytes, raster::specs::Pairs::pairs_long))]
fn sample_count(raster: &[u8], depth: u32) -> usize
    ensures { result ≡ length (samples_at depth raster.now) }
{
    if depth <= 8 {
        raster.len()
    } else {
        raster.len() / 2
    }
}

// Sample i of them.
#[tactic(auto, using(crate::proofs::Samples::two_bytes, raster::specs::Pairs::pairs_long))]
fn number_at(raster: &[u8], depth: u32, i: usize) -> i32
    requires { i < length (samples_at depth raster.now) }
    ensures { result ≡ pos (get_or (samples_at depth raster.now) i 0) }
{
    if depth <= 8 {
        i32::from(raster[i])
    } else {
        i32::from(raster::pair(raster, i))
    }
}

// The sample `offset` samples into a pixel of a raster: 0, 1 and 2 for planes 1, 2 and 3. 0 behind the raster's end.
#[tactic(auto, using(crate::proofs::Samples::sample_is, crate::proofs::Samples::sample_past))]
pub fn sample_at(raster: &[u8], depth: u32, offset: usize, index: usize) -> i32
    ensures { result ≡ sample_of depth raster.now offset index }
{
    let n = sample_count(raster, depth);
    if offset < n && index <= (n - 1 - offset) / 3 {
        number_at(raster, depth, 3 * index + offset)
    } else {
        0
    }
}

// The record of a file. Where the header is refused its numbers are 0 and its raster is empty.
pub fn open(file: &[u8]) -> Picture
    ensures { PictureOf file.entry result }
{
    let n = header_numbers(file);
    Picture {
        width: n.width,
        height: n.height,
        depth: n.depth,
        raster: pixmap::raster(file),
    }
}

pub fn raster<'a>(p: Picture<'a>) -> &'a [u8]
    ensures { result ≡ p.entry.raster }
{
    p.raster
}

pub fn sample(p: Picture, offset: usize, index: usize) -> i32
    ensures { result ≡ sample_of p.entry.depth p.entry.raster.now offset index }
{
    sample_at(p.raster, p.depth, offset, index)
}

// The same from the file itself: whoever calls this one needs no record.
pub fn sample_in(file: &[u8], offset: usize, index: usize) -> i32
    ensures { result ≡ sample_of (numbers_of (header_of file.now)).depth (raster_of file.now) offset index }
{
    sample(open(file), offset, index)
}
