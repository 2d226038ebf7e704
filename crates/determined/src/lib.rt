// Each public call's contract allows one result and one final content of each buffer: the theorems stand in
// proofs/Determined.antt, and there is no code.
#![tactic(auto)]
