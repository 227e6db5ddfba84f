// `choose` on a file of 65,536 bytes, the most that one may have (examples/make).

#![tactic(auto)]

fn main(rt: HostRuntime) {
    choose_program::run(&rt);
}
