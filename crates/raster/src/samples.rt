// What the loops over a raster need of samples, which are of one byte, `u8`, or of two, `u16`.
ghost use Rattle.std.specs.Prelude.{◌≡◌, List, [], ◌∷◌, ◌++◌, ℕ, ◌+◌, ◌*◌, ◌/◌, ◌%◌, ◌<◌, ◌≤◌, max, length, get_or, refl};
ghost use Rattle.std.proofs.Common.{lit≤};
ghost use Rattle.std.proofs.Math.Nat.{le_refl};
ghost use Rattle.stage.specs.Raster.{from_pairs, to_pairs};
ghost use Rattle.text.specs.Written.{Written};
ghost use Rattle.raster.specs.Pairs.{pairs_few, no_pairs, pairs_each};

use text::Writer;

pub(crate) trait Sample: Copy {
    // a sample's number, and the highest that a sample may have
    ghost value: { Self → ℕ };

    ghost most: { ℕ };

    // the samples that bytes are, and the bytes of samples
    ghost samples: { List ℕ → List ℕ };

    ghost bytes: { List ℕ → List ℕ };

    fn least() -> Self
        ensures { value result ≡ 0 };

    // Methods of the trait, since a bound on `From` or `Ord` says nothing of `value`.
    fn number(self) -> u16
        ensures { result ≡ value self };

    fn larger(self, other: Self) -> Self
        ensures { value result ≡ max (value self) (value other) };

    // How many a raster has.
    fn count(raster: &[u8]) -> usize
        ensures { result ≡ length (samples raster.now) };

    // Sample i.
    fn at(raster: &[u8], i: usize) -> Self
        requires { i < length (samples raster.now) }
        ensures { value result ≡ get_or (samples raster.now) i 0 };

    fn put(to: &mut Writer, n: u32)
        requires room { to.old.at + length (bytes (n ∷ [])) ≤ length to.old.text.now }
        requires fits { n ≤ most }
        ensures same { to.new.text.ghost_name ≡ to.old.text.ghost_name }
        ensures written { Written to.old.text.now to.old.at (bytes (n ∷ [])) to.new.text.now to.new.at };

    ghost few: { (l : List ℕ) → length (samples l) ≤ length l };

    ghost most_fits: { most ≤ 65535 };

    ghost none_written: { bytes [] ≡ [] };

    ghost each_written: { (n : ℕ) (l : List ℕ) → bytes (n ∷ l) ≡ bytes (n ∷ []) ++ bytes l };
}

impl Sample for u8 {
    ghost value = { λ n. n };

    ghost most = { 255 };

    ghost samples = { λ l. l };

    ghost bytes = { λ l. l };

    ghost few = { λ l. le_refl (length l) };

    ghost most_fits = { lit≤ tt };

    ghost none_written = { refl };

    ghost each_written = { λ n l. refl };

    fn least() -> u8 {
        0
    }

    fn number(self) -> u16 {
        self as u16
    }

    fn larger(self, other: u8) -> u8 {
        self.max(other)
    }

    fn count(raster: &[u8]) -> usize {
        raster.len()
    }

    fn at(raster: &[u8], i: usize) -> u8 {
        raster[i]
    }

    fn put(to: &mut Writer, n: u32) {
        to.put_byte(n as u8);
    }
}

impl Sample for u16 {
    ghost value = { λ n. n };

    ghost most = { 65535 };

    ghost samples = { from_pairs };

    ghost bytes = { to_pairs };

    ghost few = { pairs_few };

    ghost most_fits = { lit≤ tt };

    ghost none_written = { no_pairs };

    ghost each_written = { pairs_each };

    fn least() -> u16 {
        0
    }

    fn number(self) -> u16 {
        self
    }

    fn larger(self, other: u16) -> u16 {
        self.max(other)
    }

    #[tactic(auto, using(crate::specs::Pairs::pairs_long))]
    fn count(raster: &[u8]) -> usize {
        raster.len() / 2
    }

    #[tactic(auto, using(crate::specs::Pairs::pairs_long))]
    fn at(raster: &[u8], i: usize) -> u16 {
        pair(raster, i)
    }

    #[tactic(auto, using(crate::proofs::Pairs::one_pair, text::proofs::Written::then))]
    fn put(to: &mut Writer, n: u32) {
        to.put_byte((n / 256) as u8);
        to.put_byte((n % 256) as u8);
    }
}

// Bytes 2 × i and 2 × i + 1, as if the second were the more significant: the compiler makes that one load, and the loops over pairs
// vectorise.
fn word(raster: &[u8], i: usize) -> u16
    requires { 2 * i + 1 < length raster.now }
    ensures { result ≡ get_or raster.now (2 * i) 0 + 256 * get_or raster.now (2 * i + 1) 0 }
{
    raster[2 * i] as u16 + 256 * raster[2 * i + 1] as u16
}

fn swapped(n: u16) -> u16
    ensures { result ≡ 256 * (n % 256) + n / 256 }
{
    256 * (n % 256) + n / 256
}

// Sample i, of two bytes, the first the more significant.
#[tactic(auto, using(crate::proofs::Pairs::pair_at, crate::proofs::Pairs::swap))]
pub fn pair(raster: &[u8], i: usize) -> u16
    requires { 2 * i + 1 < length raster.now }
    ensures { result ≡ get_or (from_pairs raster.now) i 0 }
{
    swapped(word(raster, i))
}
