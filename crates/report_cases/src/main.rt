// The report on each file of data/, behind its name.
#![tactic(auto)]

use std::rt::Files;
use std::{fs, io};

static NAMES: [&str; 13] = [
    // refused by the reader
    "comment_behind_number.ppm",
    "width_8193.ppm",
    "maxval_256.ppm",
    "byte_missing.ppm",
    // too large: 9 comes before the header is read, then after it, by the trial planes and by the counters
    "8192_bytes_no_header.ppm",
    "8193_bytes_no_header.ppm",
    "2049_pixels.ppm",
    "depth_9.ppm",
    // a sample above maxval
    "sample_128_of_127.ppm",
    // pictures; "Estimate 209 with N 4 gives 52 and 1"
    "estimate_209.ppm",
    "white_space.ppm",
    "depth_2.ppm",
    "2048_pixels.ppm",
];

fn case<R: Files + Print>(rt: &R, name: &str) -> io::Result<()> {
    println!(rt; "{name}")?;
    let mut file = fs::open(rt, name)?;
    report_text::print_report(rt, &mut file);
    Ok(())
}

fn main(rt: HostRuntime) -> io::Result<()> {
    for name in NAMES {
        case(&rt, name)?;
    }
    Ok(())
}
