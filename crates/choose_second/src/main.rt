// `choose` on a file of the second edition (document 02, M-111) of 65,536 bytes, the most that one may have: 700 plans whose numbers and settings are passed over.

#![tactic(auto)]

fn main(rt: HostRuntime) {
    choose_program::run(&rt);
}
