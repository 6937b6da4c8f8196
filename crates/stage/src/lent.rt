// Lent planes: their lengths, and planes to change lent on to be read.
ghost use Rattle.std.specs.Prelude.{◌≡◌};
ghost use Rattle.stage.specs.Planes.{samples, samples_mut};
ghost use Rattle.stage.specs.Transform.{lengths};

use crate::{Planes, PlanesMut, Triple};

impl<'a> Triple<&'a [i32]> {
    pub fn lengths(self) -> Triple<usize>
        ensures { result ≡ lengths (samples self.entry) }
    {
        Triple {
            c1: self.c1.len(),
            c2: self.c2.len(),
            c3: self.c3.len(),
        }
    }
}

impl<'a> Triple<&'a mut [i32]> {
    pub fn shared(&self) -> Planes
        ensures { samples result ≡ samples_mut self.now }
    {
        Triple {
            c1: &*self.c1,
            c2: &*self.c2,
            c3: &*self.c3,
        }
    }
}
