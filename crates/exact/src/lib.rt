// docs/RULES.md, "What can be seen": the sight on exact heights, as fractions, specs/ExactSight.antt, and how it lies to the sight
// on their floors, proofs/Floors.antt. It holds over any exact heights, so for each direction and each kind of road.

#![tactic(auto)]
