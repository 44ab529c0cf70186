// What a page keeps when a net is connected, and after separation: laws about the definitions (specs/, proofs/). There is no code here.
#![tactic(auto)]
