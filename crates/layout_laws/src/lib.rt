// What a laid-out page says of its nets, before separation and after: laws about the definitions (specs/, proofs/). There is no code here.
#![tactic(auto)]
