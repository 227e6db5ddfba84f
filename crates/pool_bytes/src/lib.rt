// A file is bytes: what its type says of each, as a fact that laws can use.

#![tactic(auto)]

ghost use Rattle.pool_bytes.specs.Bytes.{EachByte};

// Each byte is below 256, which "there and back again gives the same bytes" rests on.
pub fn each_byte(file: &[u8])
    ensures { EachByte file.now }
{}
