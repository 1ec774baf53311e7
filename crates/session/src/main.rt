// The session program: runs the script on standard input (docs/SESSION-SCRIPT.md). `stdin` and `stdout` beside this folder are
// the sample session and its answers.
#![tactic(auto)]

fn main(rt: HostRuntime) {
    runner::run_standard_input(&rt);
}
