// The report program: the report on standard input.
#![tactic(auto)]

fn main(rt: HostRuntime) {
    report_text::print_report(&rt, &mut rt.reader());
}
