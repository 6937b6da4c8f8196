// The text of a header. A place may lie anywhere, also behind the file's end, where the text is empty: so it
// is a number and no slice.
ghost use Rattle.std.specs.Prelude.{◌≡◌, ℕ, false, drop};
ghost use Rattle.stage.specs.Pixmap.{is_white, ends_comment, ends_stretch, stays_inside, after_stretch, first, field, header_text};
ghost use Rattle.pixmap.specs.Parts.{PartOf};
ghost use Rattle.pixmap.specs.HeaderFields.{FieldRead, TextRead};

// The number of a field, or 100,000 where that is larger; and the place behind it.
#[derive(Clone, Copy, Debug, PartialEq, Eq)]
struct Field {
    value: u32,
    at: usize,
}

// A header's three numbers, each as a field has it, and what stands behind the header.
#[derive(Clone, Copy)]
pub struct Parsed<'a> {
    pub width: u32,
    pub height: u32,
    pub maxval: u32,
    pub raster: &'a [u8],
}

#[tactic(auto, unfolding(stage::specs::Pixmap::is_white))]
fn is_white(b: u8) -> bool
    ensures { result ≡ is_white b }
{
    (b == b' ') | ((9 <= b) & (b <= 13))
}

fn ends_comment(b: u8) -> bool
    ensures { result ≡ ends_comment b }
{
    (b == b'\n') | (b == b'\r')
}

#[tactic(auto, unfolding(stage::specs::Pixmap::ends_stretch))]
fn ends_stretch(inside: bool, b: u8) -> bool
    ensures { result ≡ ends_stretch inside b }
{
    !(inside | is_white(b) | (b == b'#'))
}

#[tactic(auto, unfolding(stage::specs::Pixmap::stays_inside))]
fn stays_inside(inside: bool, b: u8) -> bool
    ensures { result ≡ stays_inside inside b }
{
    if inside { !ends_comment(b) } else { b == b'#' }
}

// The byte at a place, and 0 behind the end.
fn byte(file: &[u8], at: usize) -> u8
    ensures { result ≡ first (drop at file.now) }
{
    file.get(at).copied().unwrap_or(0)
}

// Where the stretch of white space and comments that begins at `at` ends. A `for` and no chain: `inside` goes along from byte to byte.
#[tactic(auto, using(crate::proofs::HeaderFields::ends_here, crate::proofs::HeaderFields::goes_here, crate::proofs::HeaderFields::file_ends))]
fn skip_stretch(file: &[u8], at: usize) -> usize
    ensures { drop result file.now ≡ after_stretch false (drop at file.now) }
{
    let mut inside = false;
    for i in at..file.len() {
        let b = file[i];
        if ends_stretch(inside, b) {
            return i;
        }
        inside = stays_inside(inside, b);
    }
    file.len()
}

// The field at a place, if what stands there is of the form.
#[tactic(auto, using(crate::proofs::HeaderFields::field_unspaced, crate::proofs::HeaderFields::field_none))]
fn read_field(file: &[u8], at: usize) -> Option<Field>
    ensures { FieldRead file.now at result }
{
    if !is_white(byte(file, at)) {
        return None;
    }
    let n = text::read_number(file, skip_stretch(file, at), file.len(), 100000)?;
    Some(Field {
        value: n.value as u32,
        at: n.at,
    })
}

// The place behind a field, of the form or not.
#[tactic(auto, using(crate::proofs::HeaderFields::end_unread, crate::proofs::HeaderFields::end_read))]
fn field_end(file: &[u8], at: usize) -> usize
    ensures { drop result file.now ≡ (field (drop at file.now)).rest }
{
    let digits = skip_stretch(file, at);
    match text::read_number(file, digits, file.len(), 0) {
        Some(n) => n.at,
        None => digits,
    }
}

// What stands behind the byte at `at`: a part of the lent file, which is its last bytes.
#[tactic(auto, using(crate::proofs::HeaderFields::part_pointer, crate::proofs::HeaderFields::part_behind))]
pub fn part_behind(file: &[u8], at: usize) -> &[u8]
    ensures { PartOf file.entry (drop 1 (drop at file.now)) result }
{
    if at < file.len() {
        let s = at + 1;
        &file[s..]
    } else {
        &file[file.len()..]
    }
}

// The header of a file whose second letter is to be `letter`, if it is of the form.
pub fn read_header(file: &[u8], letter: u8) -> Option<Parsed>
    ensures { TextRead letter file.entry result }
{
    let letters = (byte(file, 0) == b'P') & (byte(file, 1) == letter);
    if !letters {
        return None;
    }
    let w = read_field(file, 2)?;
    let h = read_field(file, w.at)?;
    let m = read_field(file, h.at)?;
    if !is_white(byte(file, m.at)) {
        return None;
    }
    Some(Parsed {
        width: w.value,
        height: h.value,
        maxval: m.value,
        raster: part_behind(file, m.at),
    })
}

// What stands behind a header, of the form or not.
#[tactic(auto, using(crate::proofs::HeaderFields::rest_behind))]
pub fn behind_header(file: &[u8]) -> &[u8]
    ensures { (letter : ℕ) → PartOf file.entry (header_text letter file.now).rest result }
{
    let width = field_end(file, 2);
    let height = field_end(file, width);
    let maxval = field_end(file, height);
    part_behind(file, maxval)
}
