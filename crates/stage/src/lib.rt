// What the code of all crates shares with the definitions of the colour stage (specs/): planes and whatever there is one of for each plane, a run's
// settings, a kind of file, a range, a refusal, and the tests of sizes and lengths.
#![tactic(auto)]

mod lent;
mod refusals;

ghost use Rattle.std.specs.Prelude.{◌≡◌, cond, Ok, Err};
ghost use Rattle.stage.specs.declared.Form.TheVariants.{Plain};
ghost use Rattle.stage.specs.declared.Bands.TheVariants.{One};
ghost use Rattle.stage.specs.declared.Refusal.TheVariants.{Transform};
ghost use Rattle.stage.specs.Answers.{between, sized};
ghost use Rattle.stage.specs.Settings.{each, plan_of, depths_allowed, depths_suit, bands_suit};
ghost use Rattle.stage.specs.Transform.{all_equal};
ghost use Rattle.stage.specs.Graymap.{plane_of};

pub use refusals::require;

#[derive(Clone, Copy, Debug, PartialEq, Eq)]
pub enum Plane {
    C1,
    C2,
    C3,
}

// Planes are numbered 1 to 3.
impl TryFrom<u32> for Plane {
    type Error = Refusal;

    ghost try_from_gives = { λ n r. r ≡ cond (between 1 3 n) (Ok (plane_of n)) (Err Transform) };

    fn try_from(number: u32) -> Result<Plane, Refusal> {
        match number {
            1 => Ok(Plane::C1),
            2 => Ok(Plane::C2),
            3 => Ok(Plane::C3),
            _ => Err(Refusal::Transform),
        }
    }
}

// One of anything for each plane.
#[derive(Clone, Copy, Debug, PartialEq, Eq, Drop)]
pub struct Triple<T> {
    pub c1: T,
    pub c2: T,
    pub c3: T,
}

// How many bits a sample of each plane has.
pub type Depths = Triple<u32>;

// Three lent planes, to read and to change in place.
pub type Planes<'a> = Triple<&'a [i32]>;

pub type PlanesMut<'a> = Triple<&'a mut [i32]>;

// The same depth for each plane.
pub fn each(depth: u32) -> Depths
    ensures { result ≡ each depth }
{
    Triple {
        c1: depth,
        c2: depth,
        c3: depth,
    }
}

// A picture's width, height and depths, and the number of its transform. Each call tests them.
#[derive(Clone, Copy, Debug, PartialEq, Eq)]
pub struct Settings {
    pub width: u32,
    pub height: u32,
    pub depths: Depths,
    pub transform: u32,
}

// The form of a transform: what a step makes of a sample is kept as it is, or wrapped to the depth's bits.
#[derive(Clone, Copy, Debug, PartialEq, Eq)]
pub enum Form {
    Plain,
    Wrapped,
}

// How a picture's rows take their filters: all from one set of choices, or each band of so many rows from its own. The last band may be
// shorter.
#[derive(Clone, Copy, Debug, PartialEq, Eq)]
pub enum Bands {
    One,
    Of(u32),
}

// What a transform's steps run with but for the choices: the settings, how a result is kept, and where filters change.
#[derive(Clone, Copy, Debug, PartialEq, Eq)]
pub struct Plan {
    pub settings: Settings,
    pub form: Form,
    pub bands: Bands,
}

// The plain form, without bands.
impl From<Settings> for Plan {
    ghost from_gives = { λ s p. p ≡ plan_of s Plain One };

    fn from(settings: Settings) -> Plan {
        Plan {
            settings,
            form: Form::Plain,
            bands: Bands::One,
        }
    }
}

// What a portable file of samples may be: a pixmap (P6) of any depth, or a graymap (P5) with this maxval.
#[derive(Clone, Copy, Debug, PartialEq, Eq)]
pub enum Kind {
    Pixmap,
    Graymap(u32),
}

// −below to above
#[derive(Clone, Copy, Debug, PartialEq, Eq)]
pub struct Range {
    pub below: u32,
    pub above: u32,
}

// Width, height and depth of a pixmap.
#[derive(Clone, Copy, Debug, PartialEq, Eq)]
pub struct Header {
    pub width: u32,
    pub height: u32,
    pub depth: u32,
}

// Width and height of a graymap.
#[derive(Clone, Copy, Debug, PartialEq, Eq)]
pub struct Size {
    pub width: u32,
    pub height: u32,
}

// The estimate, and how many samples of each plane it counts.
#[derive(Clone, Copy, Debug, PartialEq, Eq)]
pub struct Estimated {
    pub estimate: u32,
    pub samples: u32,
}

// Why a call refuses. The numbers are the papers'.
#[derive(Clone, Copy, Debug, PartialEq, Eq)]
pub enum Refusal {
    // whoever made the file
    Header = 1,
    Size = 2,
    Maxval = 3,
    Raster = 4,
    // the calling program
    Depth = 5,
    Transform = 6,
    Choices = 7,
    Plane = 8,
    Scratch = 9,
    Rounds = 10,
    Wide = 13,
    Buffer = 14,
    Unequal = 16,
    Band = 17,
    // whoever made the samples
    Sample = 11,
    Unreached = 12,
    Preview = 15,
}

pub fn is_between(low: u32, high: u32, n: u32) -> bool
    ensures { result ≡ between low high n }
{
    (low <= n) & (n <= high)
}

pub fn is_sized(width: u32, height: u32) -> bool
    ensures { result ≡ sized width height }
{
    ((1 <= width) & (width <= 8192)) & ((1 <= height) & (height <= 8192))
}

// Whether each depth is 2 to 16.
pub fn are_depths(d: Depths) -> bool
    ensures { result ≡ depths_allowed d }
{
    ((2 <= d.c1) & (d.c1 <= 16)) & (((2 <= d.c2) & (d.c2 <= 16)) & ((2 <= d.c3) & (d.c3 <= 16)))
}

// Whether a form takes the depths: wrapped to one depth's bits, all three are that depth.
pub fn depths_suit(form: Form, d: Depths) -> bool
    ensures { result ≡ depths_suit form d }
{
    match form {
        Form::Plain => true,
        Form::Wrapped => (d.c1 == d.c2) & (d.c2 == d.c3),
    }
}

// Whether a picture has such bands: not of no row, nor of more than there are.
pub fn bands_suit(bands: Bands, height: u32) -> bool
    ensures { result ≡ bands_suit bands height }
{
    match bands {
        Bands::One => true,
        Bands::Of(n) => (1 <= n) & (n <= height),
    }
}

// Whether three lengths are n.
pub fn all_equal(n: usize, lengths: Triple<usize>) -> bool
    ensures { result ≡ all_equal n lengths }
{
    (lengths.c1 == n) & ((lengths.c2 == n) & (lengths.c3 == n))
}
