// A plane written as a graymap.
ghost use Rattle.std.specs.Prelude.{◌≡◌, ◌+◌, ◌*◌, ◌≤◌, length};
ghost use Rattle.stage.specs.Answers.{outcome_of};
ghost use Rattle.stage.specs.Raster.{sample_bytes};
ghost use Rattle.stage.specs.Graymap.{written_header, graymap_of, graymap_written};
ghost use Rattle.text.specs.Written.{Written};
ghost use Rattle.graymap.specs.Parts.{Measurable, Plane, Puttable, with_file, written_plane};

use crate::refusals::sized_plane;
use ranges::finished_range;
use raster::{put_samples, sample_bytes};
use stage::{Range, Refusal, Settings, require};
use text::{Writer, digit_count};

// The length of a file: P5, three separators and a line feed, the digits of three numbers, and the samples. Width and height stay two
// numbers here and below: headers are written of numbers, and C's settings have them so.
fn file_length(width: u32, height: u32, maxval: u32) -> usize
    requires { Measurable width height maxval }
    ensures { (result ≡ length (written_header 53 width height maxval) + sample_bytes maxval * (width * height)) × (result ≤ 134217764) }
{
    let digits = digit_count(width) + digit_count(height) + digit_count(maxval);
    let samples = sample_bytes(maxval) * (width * height);
    6 + digits + samples as usize
}

#[tactic(auto, using(crate::proofs::Lengths::header_long))]
fn put_header(to: &mut Writer, letter: u8, width: u32, height: u32, maxval: u32)
    requires { to.old.at + length (written_header letter width height maxval) ≤ length to.old.text.now }
    ensures same { to.new.text.ghost_name ≡ to.old.text.ghost_name }
    ensures written { Written to.old.text.now to.old.at (written_header letter width height maxval) to.new.text.now to.new.at }
{
    to.put_byte(b'P');
    to.put_byte(letter);
    to.put_field(b'\n', width);
    to.put_field(b' ', height);
    to.put_field(b'\n', maxval);
    to.put_byte(b'\n');
}

// The whole file; what stands behind it stays.
fn put_graymap(file: &mut [u8], width: u32, height: u32, range: Range, samples: &[i32])
    requires { Puttable width height range samples.now file.old }
    ensures { file.new ≡ with_file (graymap_of width height range samples.now) file.old }
{
    let mut to = Writer::new(file);
    put_header(&mut to, b'5', width, height, range.below + range.above);
    put_samples(&mut to, samples, range);
}

// A plane of this size and range: the last two tests, and the file.
fn write_plane(
    width: u32,
    height: u32,
    range: Range,
    samples: &[i32],
    file: &mut [u8],
) -> Result<u32, Refusal>
    requires { Plane width height range samples.now }
    ensures { outcome_of result file.new ≡ written_plane width height range samples.now file.old }
{
    let length = file_length(width, height, range.below + range.above);
    require(length <= file.len(), Refusal::Buffer)?;
    let within = integers::all_within(samples, range.below, range.above);
    require(within, Refusal::Unreached)?;
    put_graymap(file, width, height, range, samples);
    Ok(length as u32)
}

// Writes a finished plane, of number 1 to 3, as a P5 file to the front of a buffer. A refusal leaves the buffer as it was lent.
pub fn write(
    settings: Settings,
    plane: u32,
    samples: &[i32],
    file: &mut [u8],
) -> Result<u32, Refusal>
    ensures { outcome_of result file.new ≡ graymap_written settings plane samples.now file.old }
{
    let c = sized_plane(settings, plane, samples.len())?;
    let range = finished_range(settings.depths, settings.transform, c);
    let narrow = range.below + range.above <= 65535;
    require(narrow, Refusal::Wide)?;
    write_plane(settings.width, settings.height, range, samples, file)
}
