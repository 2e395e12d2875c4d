// What holds of every line and every frame. All of it is in specs/ and proofs/.
#![tactic(auto)]
