// The estimate of a plane (01, "Estimate and search").
#![tactic(auto)]

mod histogram;
mod residual;

ghost use Rattle.std.specs.Prelude.{◌≡◌, ◌≤◌, length};
ghost use Rattle.stage.specs.Estimate.{counted, log_sum, plane_counts, plane_estimate};
ghost use Rattle.estimate.specs.Counting.{Counters, PlaneReady, PlaneFound};

// N, of a plane of t samples.
#[tactic(auto, unfolding(stage::specs::Estimate::counted))]
pub fn counted(t: usize) -> u32
    ensures { result ≡ counted t }
{
    t.min(4096) as u32
}

// The sum of c × L(c) over how often each counted residual occurs, in two passes. The room is for the numbers of their counters.
fn residual_sum(plane: &[i32], width: usize, d: u32, room: &mut [u32], counters: &mut [u32]) -> u32
    requires ready { PlaneReady width d plane.now counters.old }
    requires room { 4096 ≤ length room.old }
    ensures value { result ≡ log_sum (plane_counts width plane.now) }
    ensures counters { Counters d counters.new }
{
    let bins = &mut room[..counted(plane.len()) as usize];
    residual::count(plane, width, d, bins, counters);
    let all = 2 * (d as usize) + 1;
    histogram::sum_and_clear(bins, all, counters)
}

// A plane's estimate. The counters are zero before and after, and no cost grows with d.
pub fn plane_estimate(plane: &[i32], width: usize, d: u32, counters: &mut [u32]) -> u32
    requires { PlaneReady width d plane.now counters.old }
    ensures { PlaneFound d (plane_estimate width plane.now) result counters.new }
{
    let n = counted(plane.len());
    let mut room: [u32; 4096] = [0; 4096];
    let sum = residual_sum(plane, width, d, &mut room, counters);
    n * logs::log(n) - sum
}
