// Lent memory: the picture copied to the front of the trial planes, and all of it zero.
ghost use Rattle.std.specs.Prelude.{◌≡◌, ◌≤◌, length, take};
ghost use Rattle.stage.specs.Planes.{samples, samples_mut, SameReferences};
ghost use Rattle.search.specs.Copies.{Room, Prepared, AllCleared};

use stage::{Planes, PlanesMut};

// Into the first numbers of a plane that may be longer. By a loop: with the library's copy of a slice C would have to bring a `memmove`.
fn copy_plane(target: &mut [i32], source: &[i32])
    requires { length source.now ≤ length target.old }
    ensures { take (length source.now) target.new ≡ source.now }
{
    for i in 0..source.len() {
        target[i] = source[i];
    }
}

// The picture copied to the front of the trial planes, and the counters zero.
pub fn prepare(trials: &mut PlanesMut, counters: &mut [u32], picture: Planes)
    requires { Room (samples picture) (samples_mut trials.old) }
    ensures same { SameReferences trials.old trials.new }
    ensures prepared { Prepared (samples picture.entry) (samples_mut trials.old) (samples_mut trials.new) counters.old counters.new }
{
    copy_plane(trials.c1, picture.c1);
    copy_plane(trials.c2, picture.c2);
    copy_plane(trials.c3, picture.c3);
    counters.fill(0);
}

pub fn clear_planes(trials: &mut PlanesMut)
    ensures same { SameReferences trials.old trials.new }
    ensures cleared { AllCleared (samples_mut trials.old) (samples_mut trials.new) }
{
    trials.c1.fill(0);
    trials.c2.fill(0);
    trials.c3.fill(0);
}
