// Pictures by number: samples of a linear congruential generator, plane 1 row by row, then plane 2, then plane 3.
#![tactic(auto)]

ghost use Rattle.std.specs.Prelude.{◌≡◌, ◌↔◌, true, ℕ, ◌+◌, ◌*◌, ◌%◌, ◌^◌, ◌<◌, ◌≤◌, slice_index};
ghost use Rattle.case_pictures.specs.Generated.{next, sample, generated, Filled};

// M + 1, how many values a sample of a depth has.
#[derive(Clone, Copy, Debug, PartialEq, Eq)]
pub struct Levels {
    pub count: u32,
    ghost some: { 1 ≤ count },
    ghost most: { count ≤ 65536 },
}

impl Levels {
    pub fn of(depth: u32) -> Levels
        requires { depth ≤ 16 }
        ensures { result.count ≡ 2 ^ depth }
    {
        Levels {
            count: 1u32 << depth,
        }
    }

    // The sample that a number gives.
    fn sample(self, x: u32) -> i32
        ensures { result ≡ sample self.count x }
    {
        (x / 65536 % self.count) as i32
    }
}

// The generator: its last number. It is no iterator, since nothing is known of a plane that was written through a `zip`.
#[derive(Clone, Copy, Debug, PartialEq, Eq)]
pub struct Generator {
    pub x: u32,
}

impl Generator {
    // The next number, which is the last from then on.
    pub fn draw(&mut self) -> u32
        ensures number { result ≡ next self.old.x }
        ensures last { self.new.x ≡ result }
    {
        self.x = self.x.wrapping_mul(1664525).wrapping_add(1013904223);
        self.x
    }

    // Fills a plane with samples. The next plane goes on from there.
    pub fn fill(&mut self, plane: &mut [i32], levels: Levels)
        ensures { Filled levels.count self.old.x plane.old plane.new self.new.x }
    {
        for z in plane.iter_mut() {
            *z = levels.sample(self.draw());
        }
    }

    // Whether a plane holds what `fill` puts there. No chain: its closure would change the generator.
    pub fn has_filled(mut self, plane: &[i32], levels: Levels) -> bool
        ensures { (result ≡ true) ↔ (plane.now ≡ generated levels.count self.x plane.now) }
    {
        for z in plane {
            if *z != levels.sample(self.draw()) {
                return false;
            }
        }
        true
    }
}

// A filter for a place, so that n = 0 to 12 puts each filter at each place.
pub fn choice(n: u32, place: u32) -> u8
    requires { (n ≤ 1073741824) × (place ≤ 3) }
    ensures { result ≡ (n + 3 * place) % 13 }
{
    ((n + 3 * place) % 13) as u8
}

// The filters of n for four places, of which a transform takes as many as it has.
pub fn choices(n: u32) -> [u8; 4]
    requires { n ≤ 1073741824 }
    ensures { (k : ℕ) → k < 4 → slice_index result k ≡ (n + 3 * k) % 13 }
{
    [choice(n, 0), choice(n, 1), choice(n, 2), choice(n, 3)]
}
