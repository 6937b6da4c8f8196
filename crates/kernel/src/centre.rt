// The centre weights of filters 1 to 11, and a division by the full window's weight that is a product.
ghost use Rattle.std.specs.Prelude.{◌≡◌, ◌/◌, ◌<◌, ◌≤◌};
ghost use Rattle.kernel.specs.Centre.{Reciprocal, CentreEntry, ReciprocalDivision};

// A filter's centre weight, 2^23 / weight, and the reciprocal of the full window's weight.
#[derive(Clone, Copy, Debug, PartialEq, Eq)]
pub struct Centre {
    pub weight: u32,
    pub offset: u32,
    pub reciprocal: u32,
}

// Indexed by filter number less one.
const CENTRE_WEIGHTS: [u32; 11] = [1, 2, 4, 8, 16, 32, 64, 128, 256, 512, 1024];

// Where the constant table stands once: every use of a constant array copies the whole of it.
static WEIGHTS: [u32; 11] = CENTRE_WEIGHTS;

// The least whole number above 2^35 / d, found once for a pass over rows: the 64 bits are the dividend's.
fn reciprocal_of(d: u32) -> u32
    requires { 9 ≤ d }
    ensures { Reciprocal d result }
{
    (34359738368 / (d as u64) + 1) as u32
}

pub fn centre_at(entry: usize) -> Centre
    requires { entry < 11 }
    ensures { CentreEntry entry result }
{
    let weight = WEIGHTS[entry];
    Centre {
        weight,
        offset: 8388608 >> (entry as u32),
        reciprocal: reciprocal_of(8 + weight),
    }
}

// n / d in fixed point with three fraction bits, without a division. The product has 64 bits because it divides; sums of samples, n among
// them, have 32.
pub fn fixed_quotient(n: u32, d: u32, reciprocal: u32) -> u32
    requires { ReciprocalDivision n d reciprocal }
    ensures { result / 8 ≡ n / d }
{
    (((n as u64) * (reciprocal as u64)) >> 32) as u32
}
