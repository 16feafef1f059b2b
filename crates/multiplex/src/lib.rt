// Theory only: a broadcaster's multiplex over its frames, and what the map's theorem says of a machine that hears it. The definitions
// are in specs/, the theorems in proofs/. There is no code here.
#![tactic(auto)]
