// docs/RULES.md, "Passing": the passing mark of a station, and the passing marks of heights.
#![tactic(auto)]

ghost use Rattle.std.specs.Prelude.{◌≡◌, ◌<◌, ◌≤◌, length};
ghost use Rattle.terms.specs.Limits.{greatest_list, greatest_farthest};
ghost use Rattle.whole.specs.Fill.{filled};
ghost use Rattle.passing.specs.Passing.{passing_mark, passing_answer, passing_list};

use terms::{Answer, Refusal};
use verdicts::Look;

// The passing mark of station `i`. One that is not judged needs no search.
#[tactic(auto, unfolding(crate::specs::Passing::passing_mark))]
fn passing_mark(heights: &[i32], distance: u32, i: usize) -> u8
    requires { (length heights.now ≤ greatest_list) × (distance ≤ greatest_farthest) × (i < length heights.now) }
    ensures { result ≡ passing_mark heights.now distance i }
{
    let last = heights.len() - 1;
    let judged = i + distance as usize <= last;
    let look = Look {
        eye: terms::EYE_HEIGHT,
        object: terms::PASSING_OBJECT_HEIGHT,
        farthest: distance,
    };
    let forward = directions::FORWARD;
    let lacking = judged
        && terms::value_or_zero(sight::sight(heights, forward, i as u32, look)) < distance;
    // the form of document 01: shifts and masks
    u8::from(lacking) << 5 | u8::from(!judged) << 6
}

// The passing marks of as many stations as the list has places, each into the place of its station.
#[tactic(auto, using(whole::proofs::Fill::filled_none, whole::proofs::Fill::filled_next))]
fn fill_passing(heights: &[i32], distance: u32, list: &mut [u8])
    requires within { (length heights.now ≤ greatest_list) × (distance ≤ greatest_farthest) }
    requires fits { length list.old ≤ length heights.now }
    ensures { list.new ≡ filled (passing_mark heights.now distance) 0 (length list.old) list.old }
{
    for (i, mark) in list.iter_mut().enumerate() {
        *mark = passing_mark(heights, distance, i);
    }
}

// Passing marks, from heights and a passing distance.
#[tactic(auto, using(verdicts::proofs::Laws::passing_in_range, sight::proofs::Front::front_filled), unfolding(crate::specs::Passing::passing_answer, crate::specs::Passing::passing_list))]
pub fn passing_marks(heights: &[i32], distance: u32, list: &mut [u8]) -> Answer
    ensures answer { result ≡ passing_answer heights.now distance list.old }
    ensures list { list.new ≡ passing_list heights.now distance list.old }
{
    let stations = heights.len();
    verdicts::passing_verdict(stations, distance)?;
    if list.len() < stations {
        return Err(Refusal::NoRoom);
    }
    fill_passing(heights, distance, &mut list[..stations]);
    Ok(stations as u32)
}
