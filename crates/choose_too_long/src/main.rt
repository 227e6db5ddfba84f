// `choose` on a good file of 65,536 bytes and one byte more (examples/make): refusal 1.

#![tactic(auto)]

fn main(rt: HostRuntime) {
    choose_program::run(&rt);
}
