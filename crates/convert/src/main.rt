// Reads a pool file from standard input and writes it in the other edition, or `refused N` (document 02, M-111).

#![tactic(auto)]

fn main(rt: HostRuntime) {
    convert_program::run(&rt);
}
