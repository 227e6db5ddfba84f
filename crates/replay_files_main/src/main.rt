// Replays the oracle's stored sample of the calls on files.

#![tactic(auto)]

fn main(rt: HostRuntime) {
    replay_program::run(&rt);
}
