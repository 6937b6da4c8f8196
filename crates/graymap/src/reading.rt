// A graymap read to a plane.
ghost use Rattle.std.specs.Prelude.{◌≡◌};
ghost use Rattle.stage.specs.Answers.{outcome_of};
ghost use Rattle.stage.specs.Graymap.{graymap_read};
ghost use Rattle.graymap.specs.Parts.{Narrow, read_file};

use crate::refusals::known_plane;
use pixmap::parse;
use ranges::finished_range;
use stage::{Depths, Kind, Range, Refusal, Size, require};

// A file of a plane of this range: the header's tests, the last two, and the plane.
fn read_file(file: &[u8], range: Range, samples: &mut [i32]) -> Result<Size, Refusal>
    requires { Narrow range }
    ensures { outcome_of result samples.new ≡ read_file range file.now samples.old }
{
    let maxval = range.below + range.above;
    let p = parse(file, Kind::Graymap(maxval))?;
    let pixels = p.width as usize * p.height as usize;
    require(samples.len() == pixels, Refusal::Plane)?;
    require(raster::all_up_to(p.raster, maxval), Refusal::Unreached)?;
    raster::fill(samples, p.raster, maxval, 1, 0, range.below);
    Ok(Size {
        width: p.width,
        height: p.height,
    })
}

// Reads a P5 file of a finished plane, of number 1 to 3. A refusal leaves the plane as it was lent.
pub fn read(
    depths: Depths,
    transform: u32,
    plane: u32,
    file: &[u8],
    samples: &mut [i32],
) -> Result<Size, Refusal>
    ensures { outcome_of result samples.new ≡ graymap_read depths transform plane file.now samples.old }
{
    let c = known_plane(depths, transform, plane)?;
    let range = finished_range(depths, transform, c);
    let narrow = range.below + range.above <= 65535;
    require(narrow, Refusal::Wide)?;
    read_file(file, range, samples)
}
