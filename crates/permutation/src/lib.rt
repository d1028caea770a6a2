// Definitions and laws alone: a list in another order.
#![tactic(auto)]
