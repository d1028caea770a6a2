// The bytes of record 3D and what a reader makes of them: definitions alone, in specs/, and their laws, in proofs/.
#![tactic(auto)]
