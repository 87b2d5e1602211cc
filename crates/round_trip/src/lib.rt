// The round trips of a road file (docs/RULES.md, "Road file"): specs/RoundTrip.antt states them, and proofs/RoundTrip.antt proves them.

#![tactic(auto)]
