// docs/RULES.md, "The lane coming back": the direction of travel. `back` is true towards falling stations.
#![tactic(auto)]

ghost use Rattle.std.specs.Prelude.{◌≡◌};
ghost use Rattle.directions.specs.Directions.{counted, driven_grade};

// Towards rising stations, as the road is measured. A direction is one of two, and C hands it in as a bool.
pub const FORWARD: bool = false;

// The place of a station among `n` stations in the order in which a driver meets them, and the station at such a place. Backward it is 0
// where there is no such station.
pub fn counted(back: bool, n: usize, k: usize) -> usize
    ensures { result ≡ counted back n k }
{
    if back {
        n.saturating_sub(1).saturating_sub(k)
    } else {
        k
    }
}

// A grade as it is driven. Its range is tested before its sign changes: one out of range stays as it is.
#[tactic(auto, unfolding(crate::specs::Directions::driven_grade))]
pub fn driven_grade(back: bool, grade: i32) -> i32
    ensures { result ≡ driven_grade back grade }
{
    if terms::grade_outside(grade) {
        return grade;
    }
    if back { -grade } else { grade }
}
