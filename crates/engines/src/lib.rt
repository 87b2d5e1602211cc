// The quick and the slow engine (docs/RULES.md, "What can be seen"): specs/ states what is proved of them, and proofs/ proves it.

#![tactic(auto)]
