// When each writer refuses, case by case (RULES 1.2, 1.6): nothing to call. The cases and their
// claims are in `specs`.
#![tactic(auto)]
