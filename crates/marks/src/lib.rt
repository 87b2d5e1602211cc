// docs/RULES.md, "Marks and zones": the mark of a station, and the marks of heights.
#![tactic(auto)]

ghost use Rattle.std.specs.Prelude.{◌≡◌, ◌+◌, ◌<◌, ◌≤◌, ◌&&◌, not, length};
ghost use Rattle.whole.specs.Fill.{filled};
ghost use Rattle.marks.specs.Markable.{Markable};
ghost use Rattle.marks.specs.Marks.{marked, mark_toward, marks_answer, marks_list};

use distance::Distances;
use terms::{Answer, Refusal};
use verdicts::Look;

// One byte of five bits, the lowest first: S, D, R, s, d. It is made of whether each distance is judged, and whether sight falls short of it.
fn compose(
    stopping_judged: bool,
    stopping_short: bool,
    decision_judged: bool,
    decision_short: bool,
) -> u8
    ensures { result ≡ marked (stopping_judged && stopping_short) (decision_judged && decision_short) (decision_judged && decision_short && (stopping_judged && not stopping_short)) (not stopping_judged) (not decision_judged) }
{
    let stopping_lacking = stopping_judged && stopping_short;
    let decision_lacking = decision_judged && decision_short;
    let reduced = decision_lacking && stopping_judged && !stopping_short;
    // the form of document 01: shifts and masks
    u8::from(stopping_lacking) << 0
        | u8::from(decision_lacking) << 1
        | u8::from(reduced) << 2
        | u8::from(!stopping_judged) << 3
        | u8::from(!decision_judged) << 4
}

// The mark of station `i` in a direction. One search, up to the larger distance, serves both; a station that is judged for neither needs
// none.
#[tactic(auto, unfolding(crate::specs::Marks::mark_toward))]
fn mark_of(heights: &[i32], back: bool, d: Distances, i: usize) -> u8
    requires { Markable heights.now d × (i < length heights.now) }
    ensures { result ≡ mark_toward heights.now back d i }
{
    let last = heights.len() - 1;
    let place = directions::counted(back, heights.len(), i);
    let stopping_judged = place + d.stopping as usize <= last;
    let decision_judged = place + d.decision as usize <= last;
    let look = Look {
        eye: terms::EYE_HEIGHT,
        object: terms::OBJECT_HEIGHT,
        farthest: d.stopping.max(d.decision),
    };
    let judged = stopping_judged || decision_judged;
    let s = if judged {
        terms::value_or_zero(sight::sight(heights, back, i as u32, look))
    } else {
        0
    };
    compose(
        stopping_judged,
        s < d.stopping,
        decision_judged,
        s < d.decision,
    )
}

// The marks of `count` stations from `first` on in a direction, each into the place of its station, from the last one back.
#[tactic(auto, using(crate::proofs::Back::back_none, crate::proofs::Back::back_more))]
fn fill_marks(
    heights: &[i32],
    back: bool,
    d: Distances,
    first: usize,
    count: usize,
    list: &mut [u8],
)
    requires { Markable heights.now d × (first + count ≤ length heights.now) × (length heights.now ≤ length list.old) }
    ensures { list.new ≡ filled (mark_toward heights.now back d) first count list.old }
{
    for i in (first..first + count).rev() {
        list[i] = mark_of(heights, back, d, i);
    }
}

// Marks, from a speed, a decision purpose, a grade, which is that for rising stations, and heights, in a direction.
#[tactic(auto, using(verdicts::proofs::Laws::marks_in_range, crate::proofs::Mark::markable), unfolding(crate::specs::Marks::marks_answer, crate::specs::Marks::marks_list))]
pub fn marks(
    speed: u32,
    purpose: u32,
    grade: i32,
    heights: &[i32],
    back: bool,
    list: &mut [u8],
) -> Answer
    ensures answer { result ≡ marks_answer speed purpose grade heights.now list.old }
    ensures list { list.new ≡ marks_list speed purpose grade heights.now back list.old }
{
    let stations = heights.len();
    verdicts::marks_verdict(speed, purpose, grade, stations)?;
    if list.len() < stations {
        return Err(Refusal::NoRoom);
    }
    let driven = directions::driven_grade(back, grade);
    let needed = distance::distances_for(speed, purpose, driven);
    fill_marks(heights, back, needed, 0, stations, list);
    Ok(stations as u32)
}
