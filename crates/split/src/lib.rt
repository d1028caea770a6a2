// The split list of a leg: mathematics alone. The definitions stand in specs/, their laws in proofs/.
#![tactic(auto)]
