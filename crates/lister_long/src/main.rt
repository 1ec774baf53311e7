// The capture lister again, held to a long damaged capture: `stdin` and `stdout` beside this folder are what the independent
// implementation under `tests/` wrote.
// Stays: a program with the `main` of `lister`, since a program's test has one `stdin` and one `stdout`.
#![tactic(auto)]

fn main(rt: HostRuntime) {
    listing::list_standard_input(&rt);
}
