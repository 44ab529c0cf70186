// What the definitions of wires and nets keep: laws about the definitions (specs/, proofs/). There is no code here.
#![tactic(auto)]
