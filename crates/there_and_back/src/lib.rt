// What converting a road file keeps (docs/RULES.md, "Converting a file"): five theorems, stated in specs/ThereAndBack.antt and
// specs/MarkedAlike.antt, and proved in proofs/. Nothing depends on this crate.

#![tactic(auto)]
