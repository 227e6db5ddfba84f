// `choose` on the same file and one byte more: refusal 17.

#![tactic(auto)]

fn main(rt: HostRuntime) {
    choose_program::run(&rt);
}
