// Pictures from P6 files, and finished planes to and from P5 files.
ghost use Rattle.std.specs.Prelude.{◌≡◌};
ghost use Rattle.stage.specs.Answers.{reply_of};
ghost use Rattle.stage.specs.Planes.{triple};
ghost use Rattle.stage.specs.Settings.{depths_of, settings_of};
ghost use Rattle.stage.specs.Pixmap.{header_of, planes_of};
ghost use Rattle.stage.specs.Graymap.{graymap_written, graymap_read};
ghost use Rattle.rulantip.specs.Returned.{returned, numbered, pixmap_returned, written_by, written_returned, graymap_by, graymap_returned};

use crate::{depths, number, settings};
use stage::{Header, Refusal, Size, Triple};

// C has no results: in each struct a refusal's number, or 0, stands beside the values. Each has a `From` of its own, as the fields differ.
#[repr(C)]
#[derive(Clone, Copy)]
pub struct RulantipPixmap {
    pub refusal: u32,
    pub width: u32,
    pub height: u32,
    pub depth: u32,
}

impl From<Result<Header, Refusal>> for RulantipPixmap {
    ghost from_gives = { λ r s. s ≡ pixmap_returned (reply_of r) };

    fn from(answer: Result<Header, Refusal>) -> RulantipPixmap {
        match answer {
            Ok(header) => RulantipPixmap {
                refusal: 0,
                width: header.width,
                height: header.height,
                depth: header.depth,
            },
            Err(refusal) => RulantipPixmap {
                refusal: refusal.number(),
                width: 0,
                height: 0,
                depth: 0,
            },
        }
    }
}

#[unsafe(no_mangle)]
pub extern "C" fn rulantip_p6_header(file: &[u8]) -> RulantipPixmap
    ensures { result ≡ pixmap_returned (header_of file.now) }
{
    RulantipPixmap::from(pixmap::header(file))
}

#[unsafe(no_mangle)]
pub extern "C" fn rulantip_p6_planes(
    file: &[u8],
    c1: &mut [i32],
    c2: &mut [i32],
    c3: &mut [i32],
) -> u32
    ensures { returned result (triple c1.new c2.new c3.new) ≡ numbered (planes_of file.now (triple c1.old c2.old c3.old)) }
{
    let mut planes = Triple { c1, c2, c3 };
    number(pixmap::planes(file, &mut planes))
}

#[repr(C)]
#[derive(Clone, Copy)]
pub struct RulantipWritten {
    pub refusal: u32,
    pub length: u32,
}

impl From<Result<u32, Refusal>> for RulantipWritten {
    ghost from_gives = { λ r s. s ≡ written_by (reply_of r) };

    fn from(answer: Result<u32, Refusal>) -> RulantipWritten {
        match answer {
            Ok(length) => RulantipWritten { refusal: 0, length },
            Err(refusal) => RulantipWritten {
                refusal: refusal.number(),
                length: 0,
            },
        }
    }
}

#[unsafe(no_mangle)]
pub extern "C" fn rulantip_p5_write(
    width: u32,
    height: u32,
    depth1: u32,
    depth2: u32,
    depth3: u32,
    transform: u32,
    plane: u32,
    samples: &[i32],
    file: &mut [u8],
) -> RulantipWritten
    ensures { returned result file.new ≡ written_returned (graymap_written (settings_of width height (depths_of depth1 depth2 depth3) transform) plane samples.now file.old) }
{
    let settings = settings(width, height, depth1, depth2, depth3, transform);
    RulantipWritten::from(graymap::write(settings, plane, samples, file))
}

#[repr(C)]
#[derive(Clone, Copy)]
pub struct RulantipGraymap {
    pub refusal: u32,
    pub width: u32,
    pub height: u32,
}

impl From<Result<Size, Refusal>> for RulantipGraymap {
    ghost from_gives = { λ r s. s ≡ graymap_by (reply_of r) };

    fn from(answer: Result<Size, Refusal>) -> RulantipGraymap {
        match answer {
            Ok(size) => RulantipGraymap {
                refusal: 0,
                width: size.width,
                height: size.height,
            },
            Err(refusal) => RulantipGraymap {
                refusal: refusal.number(),
                width: 0,
                height: 0,
            },
        }
    }
}

#[unsafe(no_mangle)]
pub extern "C" fn rulantip_p5_read(
    depth1: u32,
    depth2: u32,
    depth3: u32,
    transform: u32,
    plane: u32,
    file: &[u8],
    samples: &mut [i32],
) -> RulantipGraymap
    ensures { returned result samples.new ≡ graymap_returned (graymap_read (depths_of depth1 depth2 depth3) transform plane file.now samples.old) }
{
    let depths = depths(depth1, depth2, depth3);
    RulantipGraymap::from(graymap::read(depths, transform, plane, file, samples))
}
