// Plans the job on standard input by all four plans and prints a line for each, or the line of the refusal.
#![tactic(auto)]

fn main(rt: HostRuntime) {
    plan_report::print_summary(
        rt.alloc(),
        &mut rt.stdin(),
        &mut rt.stdout(),
        &mut rt.stderr(),
    );
}
