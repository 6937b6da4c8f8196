// What the calling program can get wrong, from numbers and lengths alone. The plane of a number is known behind the test of it.
ghost use Rattle.std.specs.Prelude.{◌≡◌, IfOk};
ghost use Rattle.stage.specs.Answers.{number, reply_of, refusal};
ghost use Rattle.stage.specs.Graymap.{plane_of, plane_tests};
ghost use Rattle.graymap.specs.Parts.{size_tests};

use stage::{Depths, Plane, Refusal, Settings, are_depths, is_sized, require};

// 5 or 6, or the plane.
pub fn known_plane(depths: Depths, transform: u32, plane: u32) -> Result<Plane, Refusal>
    ensures tests { number (reply_of result) ≡ refusal (plane_tests depths transform plane) }
    ensures plane { IfOk result (λ c. c ≡ plane_of plane) }
{
    require(are_depths(depths), Refusal::Depth)?;
    require(transform <= 3, Refusal::Transform)?;
    Plane::try_from(plane)
}

// 2, 5, 6 or 8 of a plane of n samples that is to be written, or the plane.
pub fn sized_plane(settings: Settings, plane: u32, n: usize) -> Result<Plane, Refusal>
    ensures tests { number (reply_of result) ≡ refusal (size_tests settings plane n) }
    ensures plane { IfOk result (λ c. c ≡ plane_of plane) }
{
    require(is_sized(settings.width, settings.height), Refusal::Size)?;
    let c = known_plane(settings.depths, settings.transform, plane)?;
    let pixels = settings.width as usize * settings.height as usize;
    require(n == pixels, Refusal::Plane)?;
    Ok(c)
}
