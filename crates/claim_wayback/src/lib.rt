// What reading finds of what was written: nothing to call. The claims are in `specs`.
#![tactic(auto)]
