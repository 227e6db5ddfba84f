// Reads a pool file from standard input and prints the listing of its selection, or `refused N` (document 01, "Pool file").

#![tactic(auto)]

fn main(rt: HostRuntime) {
    choose_program::run(&rt);
}
