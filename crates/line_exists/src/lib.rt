// A line is found exactly if there is one, with pruning or without: a theorem about the definitions (specs/Exists, proofs/Theorem). There is no code here.
#![tactic(auto)]
