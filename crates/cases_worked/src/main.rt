// The worked sheets of the scope document and the directed cases, from the stream in this crate's `stdin`.
#![tactic(auto)]

fn main(rt: HostRuntime) {
    cases_run::run(&rt);
}
