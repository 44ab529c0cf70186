// 01's marked cases: one table of theorems about the definitions (specs/Starred, proofs/Table). There is no code here.
#![tactic(auto)]
