// The report on a pixmap, or the refusal that takes its place.
ghost use Rattle.std.specs.Prelude.{◌≡◌, length};
ghost use Rattle.stage.specs.Planes.{samples};
ghost use Rattle.stage.specs.Pixmap.{header_of, raster_of};
ghost use Rattle.report_text.specs.Report.{lines, file_lines};
ghost use Rattle.report_text.specs.Promises.{LinesRoom, Empty, LinesPut, FourLines};

use crate::lines::{Line, put_line};
use crate::searches::search_with;
use stage::{Header, Planes, Refusal, Triple};
use text::Writer;

// The header line, and the lines of four searches.
fn put_lines(to: &mut Writer, l0: Line, l1: Line, l2: Line, l3: Line)
    requires { LinesRoom to.old.text.now to.old.at l0 l1 l2 l3 }
    ensures same { to.new.text.ghost_name ≡ to.old.text.ghost_name }
    ensures written { FourLines to.old.text.now l0.entry l1.entry l2.entry l3.entry to.new.text.now to.new.at }
{
    to.put_bytes(b"transform filters estimate samples each rest\n");
    put_line(to, l0);
    put_line(to, l1);
    put_line(to, l2);
    put_line(to, l3);
}

// The lines of a picture's four searches, or the first refusal: then nothing is written. Each transform has as many filters as places.
fn put_picture(to: &mut Writer, header: Header, picture: Planes) -> Result<(), Refusal>
    requires { Empty to.old.text.now to.old.at }
    ensures same { to.new.text.ghost_name ≡ to.old.text.ghost_name }
    ensures put { LinesPut (lines header (samples picture.entry)) result to.old.text.now to.new.text.now to.new.at }
{
    let mut f0 = [0u8; 4];
    let mut f1 = [0u8; 4];
    let mut f2 = [0u8; 2];
    let mut f3 = [0u8; 3];
    let s0 = search_with(header, 0, &mut f0, picture)?;
    let s1 = search_with(header, 1, &mut f1, picture)?;
    let s2 = search_with(header, 2, &mut f2, picture)?;
    let s3 = search_with(header, 3, &mut f3, picture)?;
    put_lines(
        to,
        Line {
            name: b"RCT",
            filters: &f0,
            found: s0,
        },
        Line {
            name: b"YCoCg-R",
            filters: &f1,
            found: s1,
        },
        Line {
            name: b"RDgDb",
            filters: &f2,
            found: s2,
        },
        Line {
            name: b"LDgEb",
            filters: &f3,
            found: s3,
        },
    );
    Ok(())
}

// A plane for any picture that fits a file of 8,192 bytes: an array, since the library has no heap.
fn new_plane() -> [i32; 2730]
    ensures { 2730 ≡ length result }
{
    [0; 2730]
}

// The lines of a file, or its refusal.
pub fn put_file(to: &mut Writer, file: &[u8]) -> Result<(), Refusal>
    requires { Empty to.old.text.now to.old.at }
    ensures same { to.new.text.ghost_name ≡ to.old.text.ghost_name }
    ensures put { LinesPut (file_lines file.now) result to.old.text.now to.new.text.now to.new.at }
{
    let long = 8192 < file.len();
    if long {
        return Err(Refusal::Scratch);
    }
    let header = pixmap::header(file)?;
    let n = header.width as usize * header.height as usize;
    let mut c1 = new_plane();
    let mut c2 = new_plane();
    let mut c3 = new_plane();
    let mut planes = Triple {
        c1: &mut c1[..n],
        c2: &mut c2[..n],
        c3: &mut c3[..n],
    };
    pixmap::planes(file, &mut planes)?;
    put_picture(to, header, planes.shared())
}
