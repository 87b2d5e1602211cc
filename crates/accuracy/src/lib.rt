// The accuracy rule (docs/RULES.md, "What can be seen"; the third demand): specs/Accuracy.antt states it and proofs/Accuracy.antt
// proves it. Nothing depends on this crate.

#![tactic(auto)]
