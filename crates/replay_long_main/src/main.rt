// Replays the oracle's answers to long inputs: full pools, sessions of 100 plans (oracle/README.md).

#![tactic(auto)]

fn main(rt: HostRuntime) {
    replay_program::run(&rt);
}
