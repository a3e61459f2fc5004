// The model of what is open, the run of calls, and what holds of every run: definitions and theorems, no code.
#![tactic(auto)]
