// The rows of RULES 8: nothing to call. The table and its claim are in `specs`.
#![tactic(auto)]
