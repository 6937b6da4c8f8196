// A search of the report.
ghost use Rattle.std.specs.Prelude.{◌≡◌, replicate};
ghost use Rattle.stage.specs.Planes.{samples};
ghost use Rattle.stage.specs.Steps.{steps, places};
ghost use Rattle.report_text.specs.Report.{search_of};
ghost use Rattle.report_text.specs.Found.{FoundBy};

use stage::{Estimated, Header, Planes, Refusal, Settings, Triple, each};

// Two rounds with one transform, over scratch of its own. A file has one depth for all planes.
pub fn search_with(
    header: Header,
    transform: u32,
    choices: &mut [u8],
    picture: Planes,
) -> Result<Estimated, Refusal>
    requires { choices.old ≡ replicate (places (steps transform)) 0 }
    ensures { FoundBy (search_of header (samples picture.entry) transform) choices.new result }
{
    let mut t1 = [0i32; 2048];
    let mut t2 = [0i32; 2048];
    let mut t3 = [0i32; 2048];
    let mut trials = Triple {
        c1: &mut t1[..],
        c2: &mut t2[..],
        c3: &mut t3[..],
    };
    let mut counters = [0u32; 1785];
    let settings = Settings {
        width: header.width,
        height: header.height,
        depths: each(header.depth),
        transform,
    };
    search::search(settings, 2, choices, picture, &mut trials, &mut counters)
}
