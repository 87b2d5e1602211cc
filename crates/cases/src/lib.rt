// The table of the starred cases, specs/Cases.antt, proved of the definitions that the contracts cite:
// `starred_cases` in proofs/Cases.antt.

#![tactic(auto)]
