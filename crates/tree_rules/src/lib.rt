// The rules of the tree, document 01, "The tree": definitions in specs/ and laws in proofs/. The code that keeps them
// stands in the crates above.
#![tactic(auto)]
