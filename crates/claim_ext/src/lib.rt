// Extensions said a second time, and small blocks with their answers: nothing to call. The cases
// and the tables are in `specs`.
#![tactic(auto)]
