// A reader of portable pixmaps: the header of any bytes, the raster as a part of the lent file, and its three planes. The header of a
// graymap is read by the same functions.
#![tactic(auto)]

mod header_text;

ghost use Rattle.std.specs.Prelude.{◌≡◌, ℕ, ◌<◌, MatchOption};
ghost use Rattle.stage.specs.Answers.{refusal, number, reply_of, outcome_of};
ghost use Rattle.stage.specs.Planes.{samples_mut, SameReferences};
ghost use Rattle.stage.specs.Pixmap.{letter, pixel_samples, depth_of, takes, header_text, header_of, raster_of, planes_of};
ghost use Rattle.pixmap.specs.Parts.{PartOf};
ghost use Rattle.pixmap.specs.Parsed.{text_tests, Readable, ParsedOf};

pub use header_text::{Parsed, part_behind};
use raster::{fill, sample_bytes};
use stage::{Header, Kind, PlanesMut, Refusal, all_equal, is_sized, require};

// Why a file is refused, and the file.
#[derive(Clone, Copy, Debug, PartialEq, Eq)]
pub struct Unparsed<'a> {
    pub refusal: Refusal,
    pub file: &'a [u8],
}

impl<'a> Unparsed<'a> {
    // What stands behind the header all the same, of the form or not. It is looked for when it is asked for: no call of the library asks.
    pub fn rest(self) -> &'a [u8]
        ensures { (letter : ℕ) → PartOf self.entry.file (header_text letter self.entry.file.now).rest result }
    {
        header_text::behind_header(self.file)
    }
}

impl From<Unparsed<'_>> for Refusal {
    ghost from_gives = { λ u r. r ≡ u.refusal };

    fn from(unparsed: Unparsed) -> Refusal {
        unparsed.refusal
    }
}

// The depth of a maxval.
#[tactic(auto, using(integers::proofs::Tests::shifted, crate::proofs::Depths::depth_found, crate::proofs::Depths::depth_next, crate::proofs::Depths::depth_none))]
fn depth_of(maxval: u32) -> Option<u32>
    ensures { MatchOption result (depth_of maxval ≡ 0) (λ d. (d ≡ depth_of maxval) × (0 < d)) }
{
    for b in 2..17 {
        if maxval == (1u32 << b) - 1 {
            return Some(b);
        }
    }
    None
}

// Of a kind of file; methods would need a trait of one impl, as `Kind` is another crate's.
fn letter(kind: Kind) -> u8
    ensures { result ≡ letter kind }
{
    match kind {
        Kind::Pixmap => b'6',
        Kind::Graymap(_) => b'5',
    }
}

fn pixel_samples(kind: Kind) -> u32
    ensures { result ≡ pixel_samples kind }
{
    match kind {
        Kind::Pixmap => 3,
        Kind::Graymap(_) => 1,
    }
}

fn takes(kind: Kind, maxval: u32) -> bool
    ensures { result ≡ takes kind maxval }
{
    match kind {
        Kind::Pixmap => depth_of(maxval).is_some(),
        Kind::Graymap(n) => maxval == n,
    }
}

// The tests of a header that is of the form.
fn check(p: Parsed, kind: Kind) -> Result<(), Refusal>
    ensures { number (reply_of result) ≡ refusal (text_tests kind p.entry) }
{
    require(is_sized(p.width, p.height), Refusal::Size)?;
    require(takes(kind, p.maxval), Refusal::Maxval)?;
    let pixel = pixel_samples(kind) * sample_bytes(p.maxval);
    let bytes = (pixel * p.width * p.height) as usize;
    require(p.raster.len() == bytes, Refusal::Raster)
}

// Reads the header of a file that is to be of this kind, and makes the tests of it.
#[tactic(auto, using(crate::proofs::Parsing::tests_kept))]
pub fn parse(file: &[u8], kind: Kind) -> Result<Parsed, Unparsed>
    requires { Readable kind }
    ensures { ParsedOf kind file.entry result }
{
    let Some(p) = header_text::read_header(file, letter(kind)) else {
        return Err(Unparsed {
            refusal: Refusal::Header,
            file,
        });
    };
    if let Err(refusal) = check(p, kind) {
        return Err(Unparsed { refusal, file });
    }
    Ok(p)
}

// Width, height and depth of a pixmap, or the first refusal that applies.
#[tactic(auto, using(crate::proofs::Parsing::header_refused, crate::proofs::Parsing::header_accepted))]
pub fn header(file: &[u8]) -> Result<Header, Refusal>
    ensures { reply_of result ≡ header_of file.now }
{
    let p = parse(file, Kind::Pixmap)?;
    let depth = depth_of(p.maxval).ok_or(Refusal::Maxval)?;
    Ok(Header {
        width: p.width,
        height: p.height,
        depth,
    })
}

// The raster itself, the last bytes of the lent file; empty where the header is refused.
#[tactic(auto, using(crate::proofs::Parsing::raster_read))]
pub fn raster(file: &[u8]) -> &[u8]
    ensures { PartOf file.entry (raster_of file.now) result }
{
    match parse(file, Kind::Pixmap) {
        Ok(p) => p.raster,
        Err(_) => &file[file.len()..],
    }
}

// The three planes of a pixmap. A refusal leaves them as they were lent.
pub fn planes(file: &[u8], planes: &mut PlanesMut) -> Result<(), Refusal>
    ensures same { SameReferences planes.old planes.new }
    ensures filled { outcome_of result (samples_mut planes.new) ≡ planes_of file.now (samples_mut planes.old) }
{
    let p = parse(file, Kind::Pixmap)?;
    let pixels = p.width as usize * p.height as usize;
    require(all_equal(pixels, planes.shared().lengths()), Refusal::Plane)?;
    fill(planes.c1, p.raster, p.maxval, 3, 0, 0);
    fill(planes.c2, p.raster, p.maxval, 3, 1, 0);
    fill(planes.c3, p.raster, p.maxval, 3, 2, 0);
    Ok(())
}
