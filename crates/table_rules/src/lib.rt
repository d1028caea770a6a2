// The table: what its bytes mean and when they are sound. Definitions alone, in specs/, and their laws, in proofs/.
#![tactic(auto)]
