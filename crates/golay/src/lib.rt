// Theory only: the Golay codes of ETS 300 352. The definitions are in specs/Code.antt, the laws in proofs/. There is no
// code here.
#![tactic(auto)]
