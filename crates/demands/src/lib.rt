// Calls and runs are definitions, in specs/; the demands are theorems, in proofs/. No code stands above them.
#![tactic(auto)]
