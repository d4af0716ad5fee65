// When each reader refuses, case by case (RULES 1.2): nothing to call. The cases and what is
// claimed of them are in `specs`.
#![tactic(auto)]
