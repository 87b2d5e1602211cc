// docs/RULES.md, "The road and its heights" and "Road file": a road as a value, and its refusals.
#![tactic(auto)]

ghost use Rattle.std.specs.Prelude.{min, ◌≡◌};
ghost use Rattle.road.specs.Road.{half, begin, end, start_of, curves_of, sharp_break, curve_verdict, curves_verdict, longest_road, numbers_verdict, verdict_up_to};

use terms::{Refusal, Verdict};

// A curve: the station where its two straights meet (PVI), its length in metres, and its grade out.
#[derive(Clone, Copy, Debug, PartialEq, Eq)]
pub struct Curve {
    pub pvi: u32,
    pub length: u16,
    pub grade_out: i16,
}

// A road's places for curves.
pub const CURVE_PLACES: usize = terms::GREATEST_CURVE_COUNT as usize;

// A road: its version, the speed, the decision purpose, the length N, the start height, the first grade, and the first `count` of
// the curve places. A road takes no heap, so its places are an array. Any number may stand in each field, and is then refused.
#[derive(Clone, Copy, Debug, PartialEq, Eq)]
pub struct Road {
    pub version: u32,
    pub speed: u8,
    pub purpose: u8,
    pub length: u32,
    pub start_height: i32,
    pub first_grade: i16,
    pub count: u8,
    pub curves: [Curve; CURVE_PLACES],
}

// The longest road of a version that is taken where no road over `most` metres is.
fn longest_road(most: u32, version: u32) -> u32
    ensures { result ≡ min most (longest_road version) }
{
    let longest = if version == terms::SECOND_VERSION {
        terms::GREATEST_LONG_ROAD
    } else {
        terms::GREATEST_SHORT_ROAD
    };
    most.min(longest)
}

impl Curve {
    // Half its length, rounded down.
    fn half(self) -> u32
        ensures { result ≡ half self }
    {
        u32::from(self.length / 2)
    }

    // Where it begins; 0 for one that reaches back before station 0.
    pub fn begin(self) -> u64
        ensures { result ≡ begin self }
    {
        u64::from(self.pvi.saturating_sub(self.half()))
    }

    // Where it ends. The sum fits, whatever the fields hold.
    pub fn end(self) -> u64
        ensures { result ≡ end self }
    {
        u64::from(self.pvi) + u64::from(self.half())
    }

    // Whether it is a plain break whose grades differ by too much. The difference of any two grades fits 32 bits.
    fn is_sharp_break(self, before: Curve) -> bool
        ensures { result ≡ sharp_break before self }
    {
        let turn = i32::from(self.grade_out) - i32::from(before.grade_out);
        // two comparisons: behind `&&` the proof of `contains` did not close
        self.length == 0 && (turn < -terms::GREATEST_BREAK || terms::GREATEST_BREAK < turn)
    }

    // Its refusals 10 to 13 and 25 on a road of length `n`, after the curve listed just before it.
    #[tactic(auto, unfolding(crate::specs::Road::curve_verdict))]
    fn verdict(self, before: Curve, n: u32) -> Verdict
        ensures { result ≡ curve_verdict n before self }
    {
        if terms::grade_outside(i32::from(self.grade_out)) {
            return Err(Refusal::GradeOutside);
        }
        if self.length % 2 != 0 || terms::GREATEST_CURVE < self.length {
            return Err(Refusal::WrongCurveLength);
        }
        if self.pvi < self.half() || u64::from(n) < self.end() {
            return Err(Refusal::CurveOffRoad);
        }
        if self.begin() < before.end() {
            return Err(Refusal::CurvesOverlap);
        }
        if self.is_sharp_break(before) {
            return Err(Refusal::SharpBreak);
        }
        Ok(())
    }
}

impl Road {
    // The curves in use: the first `count` places, or all where there are not as many.
    pub fn curves_in_use(&self) -> &[Curve]
        ensures { result.now ≡ curves_of self.now }
    {
        let count = usize::from(self.count).min(CURVE_PLACES);
        &self.curves[..count]
    }

    // Refusals 6 to 10 of its own numbers, the curves left out, where no road over `most` metres is taken.
    #[tactic(auto, unfolding(crate::specs::Road::numbers_verdict))]
    fn numbers_verdict(self, most: u32) -> Verdict
        ensures { result ≡ numbers_verdict most self }
    {
        if terms::outside(
            terms::LEAST_SPEED,
            terms::GREATEST_SPEED,
            u32::from(self.speed),
        ) {
            return Err(Refusal::SpeedOutside);
        }
        let purpose = u32::from(self.purpose);
        if terms::outside(terms::FIRST_DECISION, terms::LAST_PURPOSE, purpose) {
            return Err(Refusal::WrongPurpose);
        }
        if terms::outside(1, longest_road(most, self.version), self.length) {
            return Err(Refusal::RoadLengthOutside);
        }
        if !(terms::LOWEST_START..=terms::HIGHEST_START).contains(&self.start_height) {
            return Err(Refusal::StartOutside);
        }
        if terms::grade_outside(i32::from(self.first_grade)) {
            return Err(Refusal::GradeOutside);
        }
        Ok(())
    }

    // The curves in use in turn, each after the one listed just before it; the lowest with a fault decides.
    #[tactic(auto, unfolding(crate::specs::Road::curves_verdict))]
    fn curves_verdict(self) -> Verdict
        ensures { result ≡ curves_verdict self.length (start_of self) (curves_of self) }
    {
        let mut before = Curve {
            pvi: 0,
            length: 0,
            grade_out: self.first_grade,
        };
        for &c in self.curves_in_use() {
            c.verdict(before, self.length)?;
            before = c;
        }
        Ok(())
    }

    // Whether it is accepted where none over `most` metres is: the first of the refusals 3, 4, then 6 to 13 and 25, that applies to it.
    #[tactic(auto, unfolding(crate::specs::Road::verdict_up_to))]
    pub fn verdict(self, most: u32) -> Verdict
        ensures { result ≡ verdict_up_to most self }
    {
        if terms::outside(terms::FIRST_VERSION, terms::SECOND_VERSION, self.version) {
            return Err(Refusal::WrongVersion);
        }
        if terms::GREATEST_CURVE_COUNT < self.count {
            return Err(Refusal::TooManyCurves);
        }
        self.numbers_verdict(most)?;
        self.curves_verdict()
    }
}
