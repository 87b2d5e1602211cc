// docs/RULES.md, "The road and its heights", Heights: the heights along a road, station by station.
#![tactic(auto)]

ghost use Rattle.std.specs.Prelude.{◌+◌, ◌-◌, ◌*◌, ◌≤◌, ◌<◌, [], ◌∷◌, ◌≡◌, length, nat_abs};
ghost use Rattle.whole.specs.Fill.{filled};
ghost use Rattle.whole.specs.Floor.{floor};
ghost use Rattle.terms.specs.Limits.{highest_start, greatest_grade, greatest_long_road};
ghost use Rattle.terms.specs.Answers.{accepted};
ghost use Rattle.road.specs.Road.{begin, end, road_verdict};
ghost use Rattle.road.specs.Order.{Placed, CurveInRange};
ghost use Rattle.heights.specs.Profile.{end_height, stored_height};
ghost use Rattle.heights.specs.Heights.{heights_answer, heights_list};

use road::{Curve, Road};
use terms::{Answer, Refusal};

// Where a walk along the profile stands: a station, the height there, and the grade onward. From a start height in its range each metre leads
// at most the greatest grade up or down.
#[derive(Clone, Copy)]
struct Walk {
    station: u32,
    height: i32,
    grade: i16,
    ghost height_size: { nat_abs height ≤ nat_abs highest_start + greatest_grade * station },
    ghost grade_size: { nat_abs grade ≤ greatest_grade },
}

impl Walk {
    ghost use Rattle.heights.specs.Walk.{StraightTo, CurveHere, height_along, height_over, exact_ahead};

    // The walk at station 0 of an accepted road.
    #[tactic(auto, using(crate::proofs::Walked::start_size, crate::proofs::Walked::first_grade_size))]
    fn start(road: Road) -> Walk
        requires { road_verdict road ≡ accepted }
        ensures station { result.station ≡ 0 }
        ensures height { result.height ≡ road.start_height }
        ensures grade { result.grade ≡ road.first_grade }
    {
        Walk {
            station: 0,
            height: road.start_height,
            grade: road.first_grade,
        }
    }

    // The height at station `x`, on along the straight.
    #[tactic(auto, using(crate::proofs::Steps::straight_steps))]
    fn on_straight(self, x: u32) -> i32
        requires { StraightTo self.station x }
        ensures { result ≡ height_along self x }
    {
        self.height + i32::from(self.grade) * (x - self.station).cast_signed()
    }

    // The height at station `x` on a curve that begins here, rounded down.
    #[tactic(auto, using(crate::proofs::Steps::curve_steps))]
    fn on_curve(self, c: Curve, x: u32) -> i32
        requires { CurveHere self.station c × (self.station < x) × (x ≤ end c) }
        ensures { result ≡ height_over self c x }
    {
        let d = i64::from(x - self.station);
        let g = i64::from(self.grade);
        let turn = i64::from(c.grade_out) - g;
        let bend = whole::floor_div(turn * d * d, 2 * i64::from(c.length));
        (i64::from(self.height) + g * d + bend) as i32
    }

    // Fills the stations after this one up to `to`, along the straight.
    #[tactic(auto, using(crate::proofs::Along::row_more, whole::proofs::Fill::filled_to), unfolding(whole::specs::Fill::filled))]
    fn fill_straight(self, to: u32, list: &mut [i32])
        requires { StraightTo self.station to × (to < length list.old) }
        ensures { list.new ≡ filled (height_along self) (self.station + 1) (to - self.station) list.old }
    {
        for x in self.station + 1..=to {
            list[x as usize] = self.on_straight(x);
        }
    }

    // Fills the stations after this one up to the end of a curve that begins here. One loop for both, over a closure, would be longer.
    #[tactic(auto, using(crate::proofs::Along::row_more, whole::proofs::Fill::filled_to), unfolding(whole::specs::Fill::filled))]
    fn fill_curve(self, c: Curve, list: &mut [i32])
        requires { CurveHere self.station c × (end c < length list.old) }
        ensures { list.new ≡ filled (height_over self c) (self.station + 1) c.length list.old }
    {
        // by metre: a range of stations takes a third more time over a curve
        for d in 1..u32::from(c.length) + 1 {
            let x = self.station + d;
            list[x as usize] = self.on_curve(c, x);
        }
    }

    // The walk at a station further on along the straight.
    #[tactic(auto, using(crate::proofs::Along::along_size))]
    fn along(self, to: u32) -> Walk
        requires { StraightTo self.station to }
        ensures station { result.station ≡ to }
        ensures height { result.height ≡ height_along self to }
        ensures grade { result.grade ≡ self.grade }
    {
        Walk {
            station: to,
            height: self.on_straight(to),
            grade: self.grade,
        }
    }

    // The height at the end of a curve that begins here.
    #[tactic(auto, using(crate::proofs::Steps::end_steps))]
    fn on_end(self, c: Curve) -> i32
        requires { CurveHere self.station c }
        ensures { result ≡ end_height self.height self.grade c }
    {
        let half = i32::from(c.length / 2);
        self.height + (i32::from(self.grade) + i32::from(c.grade_out)) * half
    }

    // The walk at the end of a curve that begins here.
    #[tactic(auto, using(crate::proofs::Along::over_size, crate::proofs::Along::out_size))]
    fn over(self, c: Curve) -> Walk
        requires { CurveHere self.station c }
        ensures station { result.station ≡ end c }
        ensures height { result.height ≡ end_height self.height self.grade c }
        ensures grade { result.grade ≡ c.grade_out }
    {
        Walk {
            station: c.end() as u32,
            height: self.on_end(c),
            grade: c.grade_out,
        }
    }

    // Fills the stations after this one up to the end of the next curve, and answers the walk there.
    fn past_curve(self, c: Curve, list: &mut [i32]) -> Walk
        requires curve { CurveInRange c }
        requires placed { Placed greatest_long_road self.station c }
        requires room { end c < length list.old }
        ensures station { result.station ≡ end c }
        ensures height { result.height ≡ end_height (height_along self (begin c)) self.grade c }
        ensures grade { result.grade ≡ c.grade_out }
        ensures list_after { list.new ≡ filled (λ x. floor (exact_ahead self (c ∷ []) x)) (self.station + 1) (end c - self.station) list.old }
    {
        let begin = c.begin() as u32;
        self.fill_straight(begin, list);
        let foot = self.along(begin);
        foot.fill_curve(c, list);
        foot.over(c)
    }
}

// Fills the stations 0 to N: the curves as listed, then the straight after the last. An accepted road has no type of its own: two private
// functions ask for one, and every public function takes any road.
#[tactic(auto, using(crate::proofs::Walked::road_steps))]
fn fill_road(road: Road, list: &mut [i32])
    requires { (road_verdict road ≡ accepted) × (road.length < length list.old) }
    ensures { list.new ≡ filled (stored_height road) 0 (road.length + 1) list.old }
{
    list[0] = road.start_height;
    let mut at = Walk::start(road);
    for &c in road.curves_in_use() {
        at = at.past_curve(c, list);
    }
    at.fill_straight(road.length, list);
}

// Heights: the first N + 1 places of the list are filled with the heights at stations 0 to N.
#[tactic(auto, using(crate::proofs::Walked::accepted_road_length), unfolding(crate::specs::Heights::heights_answer, crate::specs::Heights::heights_list))]
pub fn heights(road: Road, list: &mut [i32]) -> Answer
    ensures answer { result ≡ heights_answer road list.old }
    ensures list { list.new ≡ heights_list road list.old }
{
    road.verdict(terms::GREATEST_LONG_ROAD)?;
    let count = road.length + 1;
    if list.len() < count as usize {
        return Err(Refusal::NoRoom);
    }
    fill_road(road, list);
    Ok(count)
}
