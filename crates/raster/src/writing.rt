// The samples of a plane, written as bytes.
ghost use Rattle.std.specs.Prelude.{◌≡◌, map};
ghost use Rattle.stage.specs.Raster.{samples_raster};
ghost use Rattle.stage.specs.Ranges.{extent};
ghost use Rattle.stage.specs.Graymap.{less_lowest};
ghost use Rattle.text.specs.Written.{Written};
ghost use Rattle.raster.specs.Samples.{Raisable, Writable};

use crate::samples::Sample;
use stage::Range;
use text::Writer;

// A number of a range, less the range's lowest.
fn less_lowest(z: i32, range: Range) -> u32
    requires { Raisable range z }
    ensures { result ≡ less_lowest range z }
{
    (z + range.below as i32) as u32
}

fn put_all<T: Sample>(to: &mut Writer, samples: &[i32], range: Range)
    requires { Writable T.most to.old.text.now to.old.at (T.bytes (map (less_lowest range) samples.now)) range samples.now }
    ensures same { to.new.text.ghost_name ≡ to.old.text.ghost_name }
    ensures written { Written to.old.text.now to.old.at (T.bytes (map (less_lowest range) samples.now)) to.new.text.now to.new.at }
{
    for z in samples {
        T::put(to, less_lowest(*z, range));
    }
}

// Each number less the lowest of its range; maxval is the highest less the lowest.
pub fn put_samples(to: &mut Writer, samples: &[i32], range: Range)
    requires { Writable 65535 to.old.text.now to.old.at (samples_raster (extent range) (map (less_lowest range) samples.now)) range samples.now }
    ensures same { to.new.text.ghost_name ≡ to.old.text.ghost_name }
    ensures written { Written to.old.text.now to.old.at (samples_raster (extent range) (map (less_lowest range) samples.now)) to.new.text.now to.new.at }
{
    let narrow = range.below + range.above < 256;
    if narrow {
        put_all::<u8>(to, samples, range);
    } else {
        put_all::<u16>(to, samples, range);
    }
}
