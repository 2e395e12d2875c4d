// Both halves together: the proved figures and the noninterference theorem. All of it is in specs/ and proofs/.
#![tactic(auto)]
