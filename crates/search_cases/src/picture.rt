// The pictures that are searched.
ghost use Rattle.std.specs.Prelude.{◌≤◌};
ghost use Rattle.stage.specs.Settings.{UpTo16};

use case_pictures::{Generator, Levels};
use stage::{Depths, PlanesMut};

// A picture's samples: in each plane a slope with the generator's noise on it, modulo M + 1 of the plane's depth. The slope begins at
// the seed, as the generator does.
#[derive(Clone, Copy)]
pub(crate) struct Slope {
    pub(crate) depths: Depths,
    pub(crate) noise: u32,
    pub(crate) step: u32,
    pub(crate) seed: u32,
    ghost shallow: { UpTo16 depths },
    ghost noisy: { 1 ≤ noise },
    ghost noisiest: { noise ≤ 65536 },
    ghost steepest: { step ≤ 65536 },
    ghost last_seed: { seed ≤ 65536 },
}

impl Slope {
    fn fill_plane(self, generator: &mut Generator, plane: &mut [i32], levels: Levels) {
        let mut base = self.seed;
        for z in plane.iter_mut() {
            let noise = generator.draw() / 65536 % self.noise;
            *z = ((base + noise) % levels.count) as i32;
            base = (base + self.step) % levels.count;
        }
    }

    pub(crate) fn fill(self, planes: &mut PlanesMut) {
        let depths = self.depths;
        let mut generator = Generator { x: self.seed };
        self.fill_plane(&mut generator, planes.c1, Levels::of(depths.c1));
        self.fill_plane(&mut generator, planes.c2, Levels::of(depths.c2));
        self.fill_plane(&mut generator, planes.c3, Levels::of(depths.c3));
    }
}
