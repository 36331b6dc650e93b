// Random cases of the second program, from the stream in this crate's `stdin`.
#![tactic(auto)]

fn main(rt: HostRuntime) {
    cases_run::run(&rt);
}
