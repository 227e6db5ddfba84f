// Replays the oracle's stored sample.

#![tactic(auto)]

fn main(rt: HostRuntime) {
    replay_program::run(&rt);
}
