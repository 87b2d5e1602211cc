// docs/RULES.md, "Distances a driver needs": the grade that a road is marked with, and the distances that it needs on it.
#![tactic(auto)]

ghost use Rattle.std.specs.Prelude.{◌≡◌};
ghost use Rattle.road_distances.specs.RoadDistances.{steeper, road_grade, road_distances};

use distance::Distances;
use road::Road;

// The lesser of two grades, and towards falling stations the greater.
fn steeper(back: bool, a: i32, b: i32) -> i32
    ensures { result ≡ steeper back a b }
{
    if back { a.max(b) } else { a.min(b) }
}

// The least of a road's grades, the first one included, or 0 if none is negative; towards falling stations the greatest, or 0 if none
// is positive.
#[tactic(auto, unfolding(crate::specs::RoadDistances::steepest_grade))]
pub fn road_grade(road: Road, back: bool) -> i32
    ensures { result ≡ road_grade road back }
{
    let mut steepest = i32::from(road.first_grade);
    for c in road.curves_in_use() {
        steepest = steeper(back, steepest, i32::from(c.grade_out));
    }
    steeper(back, steepest, 0)
}

// What a road needs on that grade to stop and to decide, at its own speed and for its own purpose.
#[tactic(auto, unfolding(crate::specs::RoadDistances::road_distances))]
pub fn road_distances(road: Road, back: bool) -> Distances
    ensures { result ≡ road_distances road back }
{
    let grade = directions::driven_grade(back, road_grade(road, back));
    distance::distances_for(u32::from(road.speed), u32::from(road.purpose), grade)
}
