// Joins and turns on an outgoing stage: what holds of every sequence of them. Definitions and theorems, no code.
#![tactic(auto)]
