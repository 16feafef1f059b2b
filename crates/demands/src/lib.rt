// Theory only: the three demands, stated of any machine that takes the calls, proved of ours and refuted of empty ones. The
// statements are in specs/, the theorems in proofs/. There is no code here.
#![tactic(auto)]
