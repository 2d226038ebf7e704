// What it is that a contract determines an outcome: the definition stands in specs/Outcomes.antt, how it follows from
// an equation in proofs/Equations.antt, and there is no code.
#![tactic(auto)]
