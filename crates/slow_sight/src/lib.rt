// docs/RULES.md, "What can be seen", the slow way, for anyone to follow: for each object station in turn, up to the first hidden one,
// every station strictly between is looked at, and nothing is remembered from one object station to the next. The contracts are those
// of the crate `sight`. `sight` and `profile` are written here again: shared, they would be handed a search and be public functions with a
// `requires`, which the project does not have.
#![tactic(auto)]

ghost use Rattle.std.specs.Prelude.{◌≡◌, ◌+◌, ◌≤◌, ◌<◌, length};
ghost use Rattle.terms.specs.Limits.{greatest_farthest};
ghost use Rattle.whole.specs.Fill.{filled};
ghost use Rattle.directions.specs.Directions.{faced};
ghost use Rattle.sight.specs.Sight.{height_at, clears, available_sight};
ghost use Rattle.sight.specs.Operations.{sight_toward, sight_answer, profile_answer, profile_list};

use terms::{Answer, Refusal};
use verdicts::Look;

// A look along a road's heights in a direction, no farther than any that is accepted. Places are counted as the driver meets the stations,
// docs/RULES.md, "The lane coming back".
#[derive(Clone, Copy)]
struct Drive<'a> {
    heights: &'a [i32],
    back: bool,
    look: Look,
    ghost near: { look.farthest ≤ greatest_farthest },
}

impl Drive<'_> {
    // The height at place `k`.
    #[tactic(auto, using(directions::proofs::Laws::faced_at, directions::proofs::Laws::counted_below))]
    fn height(&self, k: usize) -> i32
        requires { k < length self.now.heights.now }
        ensures { result ≡ height_at (faced self.now.back self.now.heights.now) k }
    {
        self.heights[directions::counted(self.back, self.heights.len(), k)]
    }

    // Whether the station at place `k` lets the line pass from the eye at place `i` to the object at place `j`: the inequality of
    // docs/RULES.md, "What can be seen", as it is worded there. Touching the road counts as passing.
    fn clears(&self, i: usize, j: usize, k: usize) -> bool
        requires { (i < k) × (k < j) × (j < length self.now.heights.now) × (j ≤ i + greatest_farthest) }
        ensures { result ≡ clears (height_at (faced self.now.back self.now.heights.now)) self.now.look.eye self.now.look.object i j k }
    {
        let eye = i64::from(self.height(i)) + i64::from(self.look.eye);
        let object = i64::from(self.height(j)) + i64::from(self.look.object);
        let road = i64::from(self.height(k));
        road * ((j - i) as i64) <= eye * ((j - k) as i64) + object * ((k - i) as i64)
    }

    // The available sight from place `i`, as docs/RULES.md, "What can be seen", has it: the greatest `s`, at most the farthest distance and
    // at most the stations left, such that the object is seen at every place from `i + 1` to `i + s`. So the search stops at the first
    // hidden station.
    fn available_sight(&self, i: usize) -> usize
        requires { (i < length self.now.heights.now) }
        ensures { result ≡ available_sight (faced self.now.back self.now.heights.now) i self.now.look.eye self.now.look.object self.now.look.farthest }
    {
        let limit = (self.look.farthest as usize).min(self.heights.len() - 1 - i);
        let mut s = 0;
        // the form of document 01
        'objects: loop {
            if s == limit {
                break 'objects s;
            }
            let next = s + 1;
            let j = i + next;
            // `k` is a station, and no slice is gone through
            for k in i + 1..j {
                if !self.clears(i, j, k) {
                    break 'objects s;
                }
            }
            s = next;
        }
    }

    // The sight from a station: from the place at which the driver meets it.
    #[tactic(auto, using(directions::proofs::Laws::counted_below, sight::proofs::Reach::sight_le_far), unfolding(sight::specs::Operations::sight_toward))]
    fn sight(&self, station: usize) -> u16
        requires { (station < length self.now.heights.now) }
        ensures { result ≡ sight_toward self.now.heights.now self.now.back station self.now.look.eye self.now.look.object self.now.look.farthest }
    {
        let i = directions::counted(self.back, self.heights.len(), station);
        self.available_sight(i) as u16
    }

    // The sight profile: each station's place gets its sight.
    #[tactic(auto, using(whole::proofs::Fill::filled_next), unfolding(whole::specs::Fill::filled))]
    fn fill_sights(&self, sights: &mut [u16])
        requires fits { length sights.old ≤ length self.now.heights.now }
        ensures { sights.new ≡ filled (λ i. sight_toward self.now.heights.now self.now.back i self.now.look.eye self.now.look.object self.now.look.farthest) 0 (length sights.old) sights.old }
    {
        for (station, place) in sights.iter_mut().enumerate() {
            *place = self.sight(station);
        }
    }
}

// Sight from one station in a direction, docs/RULES.md, "What can be seen".
#[tactic(auto, using(verdicts::proofs::Laws::sight_in_range), unfolding(sight::specs::Operations::sight_answer))]
pub fn sight(heights: &[i32], back: bool, station: u32, look: Look) -> Answer
    ensures { result ≡ sight_answer heights.now back station look.eye look.object look.farthest }
{
    verdicts::sight_verdict(heights.len(), station, look)?;
    let drive = Drive {
        heights,
        back,
        look,
    };
    Ok(u32::from(drive.sight(station as usize)))
}

// The sight profile in a direction, docs/RULES.md, "What can be seen": every station's sight.
#[tactic(auto, using(verdicts::proofs::Laws::profile_in_range, sight::proofs::Front::front_filled), unfolding(sight::specs::Operations::profile_answer, sight::specs::Operations::profile_list))]
pub fn profile(heights: &[i32], back: bool, look: Look, sights: &mut [u16]) -> Answer
    ensures answer { result ≡ profile_answer heights.now look.eye look.object look.farthest sights.old }
    ensures list { sights.new ≡ profile_list heights.now back look.eye look.object look.farthest sights.old }
{
    verdicts::profile_verdict(heights.len(), look)?;
    if sights.len() < heights.len() {
        return Err(Refusal::NoRoom);
    }
    let drive = Drive {
        heights,
        back,
        look,
    };
    drive.fill_sights(&mut sights[..heights.len()]);
    Ok(heights.len() as u32)
}
