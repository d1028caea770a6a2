// What the public calls promise, and the three demands, as definitions and theorems. The calls themselves stand in
// `service`.
#![tactic(auto)]
