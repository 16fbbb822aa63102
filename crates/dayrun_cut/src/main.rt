// The program `dayrun` on an input longer than its buffer that ends inside a record: the record is refused with 1.
// A program has one stored input, so this one has a `main` of its own, which is that of `dayrun`.
#![tactic(auto)]

fn main(rt: HostRuntime) {
    dayrun_loop::answer_input(&mut rt.stdin(), &mut rt.stdout());
}
