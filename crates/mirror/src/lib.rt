// docs/RULES.md, "The lane coming back": the mirror of a road, which is the road as it is driven towards falling stations.
#![tactic(auto)]

ghost use Rattle.std.specs.Prelude.{◌≡◌, Err, MatchResult};
ghost use Rattle.terms.specs.Answers.{accepted};
ghost use Rattle.road.specs.Road.{road_verdict};
ghost use Rattle.heights.specs.Profile.{stored_height};
ghost use Rattle.mirror.specs.Mirror.{mirror, mirror_verdict, mirror_of};

use road::{Curve, Road};
use terms::{Refusal, Verdict};

// What mirroring answers, and beside it the mirror, as document 01 has it of roads: all zero where it is refused.
#[derive(Clone, Copy, Debug, PartialEq, Eq)]
pub struct Mirrored {
    pub verdict: Verdict,
    pub road: Road,
}

// The height at the end of an accepted road, whose heights are not refused. An accepted road has no type of its own: `heights` takes any road.
#[tactic(auto, using(heights::proofs::Walked::accepted_road_length))]
fn end_height(road: Road) -> i32
    requires { road_verdict road ≡ accepted }
    ensures { result ≡ stored_height road road.length }
{
    let mut list = [0i32; terms::LONG_STATIONS];
    let _ = heights::heights(road, &mut list);
    list[road.length as usize]
}

// The mirror of an accepted road. `grade` is the grade in of curve `k`: with its sign changed it is that curve's grade out in the mirror, and
// behind the last curve the mirror's first grade.
#[tactic(auto, using(crate::proofs::Turning::few, crate::proofs::Turning::pvi_on_road))]
fn mirror_from(road: Road) -> Road
    requires { road_verdict road ≡ accepted }
    ensures { result ≡ mirror road }
{
    let in_use = road.curves_in_use();
    let mut curves = [file::NO_CURVE; road::CURVE_PLACES];
    let mut grade = road.first_grade;
    for (k, &c) in in_use.iter().enumerate() {
        curves[in_use.len() - 1 - k] = Curve {
            pvi: road.length - c.pvi,
            length: c.length,
            grade_out: -grade,
        };
        grade = c.grade_out;
    }
    Road {
        start_height: end_height(road),
        first_grade: -grade,
        curves,
        ..road
    }
}

// The mirror of a road. Refused as the road is, then as its mirror is.
#[tactic(auto, unfolding(crate::specs::Mirror::mirror_verdict))]
fn accepted_mirror(road: Road) -> Result<Road, Refusal>
    ensures { MatchResult result (λ r. (r ≡ mirror road) × (mirror_verdict road ≡ accepted)) (λ refusal. mirror_verdict road ≡ Err refusal) }
{
    road.verdict(terms::GREATEST_LONG_ROAD)?;
    let mirror = mirror_from(road);
    mirror.verdict(terms::GREATEST_LONG_ROAD)?;
    Ok(mirror)
}

// The verdict of mirroring a road, and beside it the mirror.
#[tactic(auto, unfolding(crate::specs::Mirror::mirror_of, file::specs::File::no_road))]
pub fn mirror(road: Road) -> Mirrored
    ensures { result ≡ mirror_of road }
{
    match accepted_mirror(road) {
        Ok(mirror) => Mirrored {
            verdict: Ok(()),
            road: mirror,
        },
        Err(refusal) => Mirrored {
            verdict: Err(refusal),
            road: file::NO_ROAD,
        },
    }
}
