// docs/RULES.md, "How long a crest must be" and "How long a sag must be": the least even length that is adequate and reaches the minimum
// for a speed, by whole numbers alone.
#![tactic(auto)]

ghost use Rattle.std.specs.Prelude.{◌≡◌, ◌≤◌, ◌+◌, ◌*◌};
ghost use Rattle.curve_lengths.specs.Lengths.{within_root, adequate, long_enough, least_length, length_verdict, crest_length, sag_length};
ghost use Rattle.terms.specs.Limits.{greatest_speed, greatest_grade_change, greatest_sight_distance, greatest_height, greatest_answered_length};

use terms::{Answer, Refusal, Verdict};

// What a curve has to be long enough for, with Q = u + √w. A sag has the greatest u, 292,000, and a crest the greatest w.
#[derive(Clone, Copy)]
struct Demand {
    // the speed V in km/h
    speed: u64,
    // the change in grade a, the drop of a crest or the rise of a sag, in hundredths of a percent
    change: u64,
    // the sight distance S in metres
    sight: u64,
    // u, the whole part of Q
    whole: u64,
    // w, which stands under the root of Q
    under_root: u64,
    ghost speed_in: { speed ≤ greatest_speed },
    ghost change_in: { change ≤ greatest_grade_change },
    ghost sight_in: { sight ≤ greatest_sight_distance },
    ghost whole_in: { whole ≤ 12000 + 350 * greatest_sight_distance },
    ghost under_root_in: { under_root ≤ 16 * greatest_height * greatest_height },
}

// Whether x − y ≤ √z, where a difference below 0 counts as 0. The largest x is a S² = 1,920,000,000, whose square is below 3.7 × 10^18.
#[tactic(auto, using(crate::proofs::Laws::within_root_square))]
fn within_root(x: u64, y: u64, z: u64) -> bool
    requires { x ≤ greatest_grade_change * (greatest_sight_distance * greatest_sight_distance) }
    ensures { result ≡ within_root x y z }
{
    let over = x.saturating_sub(y);
    over * over <= z
}

impl Demand {
    // Whether the length l is adequate. The largest product is l² w = 4,000,000 × 40,000,000,000 = 1.6 × 10^17.
    #[tactic(auto, unfolding(crate::specs::Lengths::adequate))]
    fn is_adequate(self, l: u64) -> bool
        requires { l ≤ greatest_answered_length }
        ensures { result ≡ adequate self.change self.sight self.whole self.under_root l }
    {
        let s = self.sight;
        if s <= l {
            return within_root(
                self.change * (s * s),
                l * self.whole,
                l * l * self.under_root,
            );
        }
        within_root(self.change * (2 * s - l), self.whole, self.under_root)
    }

    // Whether the length l is long enough: it reaches the minimum for the speed, and it is adequate.
    #[tactic(auto, unfolding(crate::specs::Lengths::long_enough, crate::specs::Lengths::reaches_minimum))]
    fn is_long_enough(self, l: u64) -> bool
        requires { l ≤ greatest_answered_length }
        ensures { result ≡ long_enough self.speed (adequate self.change self.sight self.whole self.under_root) l }
    {
        3 * self.speed <= 5 * l && self.is_adequate(l)
    }

    // The least even length from 0 to 2,000 that is long enough, by a binary search over half the length: about ten lengths
    // are tested.
    fn least_length(self) -> Answer
        ensures { result ≡ least_length (long_enough self.speed (adequate self.change self.sight self.whole self.under_root)) }
    {
        let last = u64::from(terms::GREATEST_ANSWERED_LENGTH / 2);
        let mut low = 0;
        let mut high = last + 1;
        // over numbers: std searches slices alone
        while low < high {
            let half = u64::midpoint(low, high);
            if self.is_long_enough(2 * half) {
                high = half;
            } else {
                low = half + 1;
            }
        }
        if last < high {
            return Err(Refusal::NoLength);
        }
        Ok((2 * high) as u32)
    }
}

// Refusals 6, 15 and 16, which crests and sags share.
#[tactic(auto, unfolding(crate::specs::Lengths::length_verdict))]
fn length_verdict(speed: u32, change: u32, sight: u32) -> Verdict
    ensures { result ≡ length_verdict speed change sight }
{
    if terms::outside(terms::LEAST_SPEED, terms::GREATEST_SPEED, speed) {
        return Err(Refusal::SpeedOutside);
    }
    if terms::outside(1, terms::GREATEST_GRADE_CHANGE, change) {
        return Err(Refusal::GradeChangeOutside);
    }
    if terms::outside(1, terms::GREATEST_SIGHT_DISTANCE, sight) {
        return Err(Refusal::SightDistanceOutside);
    }
    Ok(())
}

// The least even length of a crest with this drop in grade over which an eye and an object of these heights see each other from
// the sight distance, and which reaches the minimum for the speed.
#[tactic(auto, using(crate::proofs::Laws::length_in_range, std::proofs::lemmas::Grind::common_steps), unfolding(crate::specs::Lengths::crest_length))]
pub fn crest_length(speed: u32, drop: u32, sight: u32, eye: u32, object: u32) -> Answer
    ensures { result ≡ crest_length speed drop sight eye object }
{
    length_verdict(speed, drop, sight)?;
    if terms::eye_or_object_outside(eye, object) {
        return Err(Refusal::HeightOutside);
    }
    let e = u64::from(eye);
    let o = u64::from(object);
    let demand = Demand {
        speed: u64::from(speed),
        change: u64::from(drop),
        sight: u64::from(sight),
        whole: 2 * (e + o),
        under_root: 16 * e * o,
    };
    demand.least_length()
}

// The least even length of a sag with this rise in grade in which headlights reach the sight distance, and which reaches the minimum
// for the speed.
#[tactic(auto, using(crate::proofs::Laws::length_in_range), unfolding(crate::specs::Lengths::sag_length))]
pub fn sag_length(speed: u32, rise: u32, sight: u32) -> Answer
    ensures { result ≡ sag_length speed rise sight }
{
    length_verdict(speed, rise, sight)?;
    let s = u64::from(sight);
    let demand = Demand {
        speed: u64::from(speed),
        change: u64::from(rise),
        sight: s,
        whole: 12000 + 350 * s,
        under_root: 0,
    };
    demand.least_length()
}
