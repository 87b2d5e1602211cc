// docs/RULES.md, "Trying another length": a road with another length at one of its curves, and when that is accepted.
#![tactic(auto)]

ghost use Rattle.std.specs.Prelude.{◌≡◌};
ghost use Rattle.change.specs.Change.{with_length, change_verdict};

use road::Road;
use terms::{Refusal, Verdict};

// The road with another length at its curve at a place, counted from 0. Where it has no such place it stays as it is.
#[tactic(auto, unfolding(crate::specs::Change::with_length))]
pub fn with_length(road: Road, place: u32, length: u16) -> Road
    ensures { result ≡ with_length road place length }
{
    let at = place as usize;
    let mut changed = road;
    // `get_mut` of an array does not say what the array holds then
    if at < changed.curves.len() {
        changed.curves[at].length = length;
    }
    changed
}

// Whether a road is accepted, has a curve at the place, and is accepted with that curve's new length. A length over 2,000 is refused
// before it is narrowed.
#[tactic(auto, using(crate::proofs::Laws::over_long), unfolding(crate::specs::Change::change_verdict))]
pub fn change_verdict(road: Road, most: u32, place: u32, length: u32) -> Verdict
    ensures { result ≡ change_verdict most road place length }
{
    road.verdict(most)?;
    if u32::from(road.count) <= place {
        return Err(Refusal::NoCurve);
    }
    if u32::from(terms::GREATEST_CURVE) < length {
        return Err(Refusal::WrongCurveLength);
    }
    let changed = with_length(road, place, length as u16);
    changed.verdict(most)
}
