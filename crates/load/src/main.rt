// Reads seven numbers from standard input and writes the pool file that they ask for, or `refused N` (document 02, M-106).

#![tactic(auto)]

fn main(rt: HostRuntime) {
    load_program::run(&rt);
}
