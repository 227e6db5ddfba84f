// The laws of niching: how the split front fills the open places, why no other filling is more even, and that it is the paper's procedure where no distance
// is a NaN. Definitions and proofs only.

#![tactic(auto)]
