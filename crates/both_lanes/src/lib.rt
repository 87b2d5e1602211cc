// A road and its mirror (docs/RULES.md, "The lane coming back"): specs/ states what is proved of them, and proofs/ proves it.

#![tactic(auto)]
