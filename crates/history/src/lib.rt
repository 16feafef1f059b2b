// Theory only: one followed address over a history of calls, and what demand 3 says of it. The definitions are in specs/,
// the theorems in proofs/. There is no code here, and no byte's place.
#![tactic(auto)]
