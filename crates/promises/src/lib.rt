// Nothing to run: the promises on the public calls, as statements in specs/ with their proofs in proofs/.
#![tactic(auto)]
