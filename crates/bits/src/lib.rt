// Theory only: what the crates above share about bits, flips and runs of bits. The definitions are in
// specs/Bits.antt, the laws in proofs/. There is no code here.
#![tactic(auto)]
