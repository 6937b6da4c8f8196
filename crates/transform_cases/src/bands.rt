// Bands of the generated pictures, and their choices.
ghost use Rattle.std.specs.Prelude.{◌≤◌};

use case_pictures::choice;

// How many rows a band has, by the picture's height, and how many bands there are: of three and of four rows the last band has one.
pub(crate) fn bands(height: u32) -> (u32, usize)
    ensures bounded { result.1 ≤ 3 }
{
    match height {
        6 => (2, 3),
        4 => (3, 2),
        3 => (2, 2),
        1 => (1, 1),
        _ => (1, 2),
    }
}

// Sets of choices for three bands, one after the other: band b has the filters of picture k + 4 × b.
pub(crate) fn sets(k: u32, places: u32) -> [u8; 12]
    requires { (k ≤ 52) × (1 ≤ places) × (places ≤ 4) }
{
    let mut choices = [0u8; 12];
    // by number: a choice is made of its number
    for i in 0..12u32 {
        choices[i as usize] = choice(k / 4 + i / places, i % places);
    }
    choices
}
