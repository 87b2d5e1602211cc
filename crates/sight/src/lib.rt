// docs/RULES.md, "What can be seen": the quick engine, for sight from one station and for the sight profile.
#![tactic(auto)]

ghost use Rattle.std.specs.Prelude.{◌≡◌, ◌+◌, ◌≤◌, length, Err, MatchResult};
ghost use Rattle.terms.specs.Limits.{greatest_farthest, greatest_list};
ghost use Rattle.terms.specs.Answers.{accepted};
ghost use Rattle.verdicts.specs.Verdicts.{sight_verdict};
ghost use Rattle.whole.specs.Fill.{filled};
ghost use Rattle.sight.specs.Operations.{sight_toward, sight_answer, profile_answer, profile_list};
ghost use Rattle.sight.specs.Comparisons.{total, comparisons_toward, comparisons_answer};

use terms::{Answer, Refusal};
use verdicts::Look;

// The sights of the stations from `first` on, one for each place, in a direction. From each the search goes ahead and is left at the first
// hidden station. It counts the stations as the driver meets them, and `i` is where the station stands among them. All stations less than
// `next` metres ahead are seen. The steepest line to them goes from the eye to the road `run` metres ahead, `rise` above the eye; before
// the first it goes straight down. It alone decides about the next station: an object on it or above it is seen. Where the road there
// reaches the line, so does any object on it, and the line to that road is the steepest from then on. Slopes are compared by products,
// `road / next` with `rise / run`. The answer is how many sight lines were compared.
#[tactic(auto, unfolding(crate::specs::Comparisons::total, crate::specs::Comparisons::comparisons_toward, whole::specs::Fill::filled, crate::specs::Operations::sight_toward))]
fn fill_sights(heights: &[i32], back: bool, first: usize, look: Look, sights: &mut [u16]) -> usize
    requires fits { first + length sights.old ≤ length heights.now }
    requires within { (length heights.now ≤ greatest_list) × (look.farthest ≤ greatest_farthest) }
    ensures compared { result ≡ total (λ k. comparisons_toward heights.now back (first + k) look.eye look.object look.farthest) (length sights.old) }
    ensures list { sights.new ≡ filled (λ k. sight_toward heights.now back (first + k) look.eye look.object look.farthest) 0 (length sights.old) sights.old }
{
    let height = i64::from(look.eye);
    let object = i64::from(look.object);
    let far = look.farthest as usize;
    let n = heights.len();
    let mut compared = 0;
    for (k, place) in sights.iter_mut().enumerate() {
        let station = first + k;
        let i = directions::counted(back, n, station);
        let end = (far + 1).min(n - i);
        let eye = i64::from(heights[station]) + height;
        let mut rise = -height;
        let mut run = 0;
        let mut next = 1;
        // the form of document 01
        let sight = 'search: loop {
            if next == end {
                break 'search end - 1;
            }
            let at = directions::counted(back, n, i + next);
            let road = i64::from(heights[at]) - eye;
            let line = rise * (next as i64);
            compared += 1; // the line to the road with the steepest
            if line <= road * (run as i64) {
                rise = road;
                run = next;
            } else {
                compared += 1; // the line to the object with it
                if (road + object) * (run as i64) < line {
                    break 'search next - 1;
                }
            }
            next += 1;
        };
        *place = sight as u16;
    }
    compared
}

// What the search from one station finds: its sight, and how many sight lines it compares.
#[derive(Clone, Copy)]
struct Found {
    sight: u32,
    compared: u32,
}

// The walk over one station in a direction.
#[tactic(auto, using(verdicts::proofs::Laws::sight_in_range))]
fn search(heights: &[i32], back: bool, station: u32, look: Look) -> Result<Found, Refusal>
    ensures { MatchResult result (λ found. (found.sight ≡ sight_toward heights.now back station look.eye look.object look.farthest) × (found.compared ≡ comparisons_toward heights.now back station look.eye look.object look.farthest) × (sight_verdict (length heights.now) station look.eye look.object look.farthest ≡ accepted)) (λ refusal. sight_verdict (length heights.now) station look.eye look.object look.farthest ≡ Err refusal) }
{
    verdicts::sight_verdict(heights.len(), station, look)?;
    let mut one = [0; 1];
    let compared = fill_sights(heights, back, station as usize, look, &mut one);
    Ok(Found {
        sight: u32::from(one[0]),
        compared: compared as u32,
    })
}

// Sight from one station in a direction.
#[tactic(auto, unfolding(crate::specs::Operations::sight_answer))]
pub fn sight(heights: &[i32], back: bool, station: u32, look: Look) -> Answer
    ensures { result ≡ sight_answer heights.now back station look.eye look.object look.farthest }
{
    Ok(search(heights, back, station, look)?.sight)
}

// How many sight lines the search from one station in a direction compares.
#[tactic(auto, unfolding(crate::specs::Comparisons::comparisons_answer))]
pub fn comparisons(heights: &[i32], back: bool, station: u32, look: Look) -> Answer
    ensures { result ≡ comparisons_answer heights.now back station look.eye look.object look.farthest }
{
    Ok(search(heights, back, station, look)?.compared)
}

// The sight profile in a direction: every station's sight, at its own place.
#[tactic(auto, using(verdicts::proofs::Laws::profile_in_range, crate::proofs::Front::front_filled), unfolding(crate::specs::Operations::profile_answer, crate::specs::Operations::profile_list))]
pub fn profile(heights: &[i32], back: bool, look: Look, sights: &mut [u16]) -> Answer
    ensures answer { result ≡ profile_answer heights.now look.eye look.object look.farthest sights.old }
    ensures list { sights.new ≡ profile_list heights.now back look.eye look.object look.farthest sights.old }
{
    verdicts::profile_verdict(heights.len(), look)?;
    if sights.len() < heights.len() {
        return Err(Refusal::NoRoom);
    }
    fill_sights(heights, back, 0, look, &mut sights[..heights.len()]);
    Ok(heights.len() as u32)
}
