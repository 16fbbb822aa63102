// Opens a day book, reads call records from standard input, and prints a line for each, up to a 1 or the end of the input.
// A program has one stored input, so `dayrun_cut` and `dayrun_refused` have a `main` of their own, which is this one.
#![tactic(auto)]

fn main(rt: HostRuntime) {
    dayrun_loop::answer_input(&mut rt.stdin(), &mut rt.stdout());
}
