// The capture lister: lists standard input. `stdin` and `stdout` beside this folder are document 01's own case.
#![tactic(auto)]

fn main(rt: HostRuntime) {
    listing::list_standard_input(&rt);
}
