// The program `dayrun` on an input with a record that can only be refused, and more records after it than its buffer holds: the 1 is the last line.
// A program has one stored input, so this one has a `main` of its own, which is that of `dayrun`.
#![tactic(auto)]

fn main(rt: HostRuntime) {
    dayrun_loop::answer_input(&mut rt.stdin(), &mut rt.stdout());
}
