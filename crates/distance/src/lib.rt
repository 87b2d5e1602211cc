// docs/RULES.md, "Distances a driver needs" and "Passing": the required sight distance, and the passing distance.
#![tactic(auto)]

ghost use Rattle.std.specs.Prelude.{◌≡◌, ◌<◌, ◌≤◌, false};
ghost use Rattle.terms.specs.Answers.{grade_outside};
ghost use Rattle.terms.specs.Limits.{least_speed, greatest_speed, last_purpose};
ghost use Rattle.distance.specs.Distance.{required_distance, distances_for, metres_for, level_metres, graded_metres, purpose_row, deceleration_parts, up_to_five};
ghost use Rattle.distance.specs.PassingDistance.{manoeuvre_outside, passing_parts, passing_distance};

use terms::{
    Answer, GREATEST_ACCELERATION, GREATEST_CLEARANCE, GREATEST_INITIAL_TIME,
    GREATEST_LEFT_LANE_TIME, GREATEST_PASSING_SPEED, GREATEST_SPEED_DIFFERENCE, LEAST_ACCELERATION,
    LEAST_CLEARANCE, LEAST_INITIAL_TIME, LEAST_LEFT_LANE_TIME, LEAST_PASSING_SPEED,
    LEAST_SPEED_DIFFERENCE, Refusal, outside,
};

mod sheet;

// A purpose's reaction time in tenths of a second, and whether the braking term counts.
#[derive(Clone, Copy, Debug, PartialEq, Eq)]
pub struct Purpose {
    pub reaction: u64,
    pub braking: bool,
}

// What a speed needs on a grade to stop, and to decide for a purpose, in metres.
#[derive(Clone, Copy, Debug, PartialEq, Eq)]
pub struct Distances {
    pub stopping: u32,
    pub decision: u32,
}

// A driver at a speed in km/h who has to see far enough for a purpose, 0 stopping, 1 to 5 decision A to E, on a grade in hundredths of a
// percent, uphill positive.
#[derive(Clone, Copy)]
struct Driver {
    speed: u64,
    purpose: usize,
    grade: i32,
    ghost speed_in: { (least_speed ≤ speed) × (speed ≤ greatest_speed) },
    ghost purpose_in: { purpose ≤ last_purpose },
    ghost grade_in: { grade_outside grade ≡ false },
}

// How a car passes another: the time t1 of its initial manoeuvre in tenths of a second, its acceleration a in hundredths of km/h per
// second, its speed v and how much faster m it is than the other in tenths of km/h, its time t2 in the left lane in tenths of a second,
// and the clearance d3 in metres that is left to an oncoming car.
#[derive(Clone, Copy, Debug, PartialEq, Eq)]
pub struct Manoeuvre {
    pub t1: u32,
    pub a: u32,
    pub v: u32,
    pub m: u32,
    pub t2: u32,
    pub d3: u32,
}

// The parts of a metre that a passing distance is counted in before rounding.
const PASSING_METRE: u64 = 30000000;

// Stopping, then decision A to E.
const PURPOSES: [Purpose; 6] = [
    Purpose {
        reaction: 25,
        braking: true,
    },
    Purpose {
        reaction: 30,
        braking: true,
    },
    Purpose {
        reaction: 91,
        braking: true,
    },
    Purpose {
        reaction: 112,
        braking: false,
    },
    Purpose {
        reaction: 129,
        braking: false,
    },
    Purpose {
        reaction: 145,
        braking: false,
    },
];

// `num / den` metres, rounded up to a multiple of 5 m.
#[tactic(auto, unfolding(crate::specs::Distance::up_to_five))]
fn up_to_five(num: u64, den: u64) -> u64
    requires { (0 < den) × (num < 1000000000000000000) × (den < 1000000000000000000) }
    ensures { result ≡ up_to_five num den }
{
    5 * num.div_ceil(5 * den)
}

impl Driver {
    // The distance on a level road, in metres, off the sheet.
    #[tactic(auto, unfolding(crate::specs::Distance::level_metres))]
    fn level_metres(self) -> u16
        ensures { result ≡ level_metres self.speed (purpose_row self.purpose) }
    {
        let at = (self.speed - u64::from(terms::LEAST_SPEED)) as usize;
        sheet::LEVEL_METRES[self.purpose][at]
    }

    // 3.4 / 9.81 + G, G being the grade as a fraction, in parts of which 9,810,000 make one.
    fn deceleration_parts(self) -> u64
        ensures parts { result ≡ deceleration_parts self.grade }
        ensures in_range { (1928500 ≤ result) × (result ≤ 4871500) }
    {
        (3400000 + 981 * i64::from(self.grade)) as u64
    }

    // The distance on a grade, braking counted: 0.278 V T + V² / (254 (3.4 / 9.81 + G)) metres, over the denominator 635,000 b.
    #[tactic(auto, unfolding(crate::specs::Distance::graded_metres, crate::specs::Distance::graded_parts))]
    fn graded_metres(self) -> u64
        ensures { result ≡ graded_metres self.speed (purpose_row self.purpose) self.grade }
    {
        let speed = self.speed;
        let reaction = PURPOSES[self.purpose].reaction;
        let b = self.deceleration_parts();
        let parts = 17653 * speed * reaction * b + 24525000000 * speed * speed;
        up_to_five(parts, 635000 * b)
    }

    // The distance for the purpose: worked out where braking meets a grade, else read off the sheet.
    #[tactic(auto, unfolding(crate::specs::Distance::metres_for))]
    fn metres(self) -> u64
        ensures { result ≡ metres_for self.speed (purpose_row self.purpose) self.grade }
    {
        if PURPOSES[self.purpose].braking && self.grade != 0 {
            return self.graded_metres();
        }
        u64::from(self.level_metres())
    }
}

// The distance that a driver at `speed` km/h needs for a purpose, 0 stopping, 1 to 5 decision A to E, on a grade in hundredths of a
// percent, uphill positive. A purpose is any number, and one over 5 is refused.
#[tactic(auto, unfolding(crate::specs::Distance::required_distance))]
pub fn required_distance(speed: u32, purpose: u32, grade: i32) -> Answer
    ensures { result ≡ required_distance speed purpose grade }
{
    if outside(terms::LEAST_SPEED, terms::GREATEST_SPEED, speed) {
        return Err(Refusal::SpeedOutside);
    }
    if terms::LAST_PURPOSE < purpose {
        return Err(Refusal::WrongPurpose);
    }
    if terms::grade_outside(grade) {
        return Err(Refusal::GradeOutside);
    }
    let driver = Driver {
        speed: u64::from(speed),
        purpose: purpose as usize,
        grade,
    };
    Ok(driver.metres() as u32)
}

// The distance to stop and the one to decide on a grade; 0 where it is refused.
#[tactic(auto, unfolding(crate::specs::Distance::distances_for))]
pub fn distances_for(speed: u32, purpose: u32, grade: i32) -> Distances
    ensures { result ≡ distances_for speed purpose grade }
{
    let stopping = required_distance(speed, terms::STOPPING_PURPOSE, grade);
    let decision = required_distance(speed, purpose, grade);
    Distances {
        stopping: terms::value_or_zero(stopping),
        decision: terms::value_or_zero(decision),
    }
}

impl Manoeuvre {
    // Whether any of its values is outside its range.
    #[tactic(auto, unfolding(crate::specs::PassingDistance::manoeuvre_outside))]
    fn is_outside(self) -> bool
        ensures { result ≡ manoeuvre_outside self }
    {
        outside(LEAST_INITIAL_TIME, GREATEST_INITIAL_TIME, self.t1)
            || outside(LEAST_ACCELERATION, GREATEST_ACCELERATION, self.a)
            || outside(LEAST_PASSING_SPEED, GREATEST_PASSING_SPEED, self.v)
            || outside(LEAST_SPEED_DIFFERENCE, GREATEST_SPEED_DIFFERENCE, self.m)
            || outside(LEAST_LEFT_LANE_TIME, GREATEST_LEFT_LANE_TIME, self.t2)
            || outside(LEAST_CLEARANCE, GREATEST_CLEARANCE, self.d3)
    }

    // Its passing distance before rounding: the initial manoeuvre, the left lane, the clearance, and the oncoming car's two thirds of
    // the time in the left lane.
    #[tactic(auto, using(crate::proofs::PassingDistance::within), unfolding(crate::specs::PassingDistance::passing_parts, crate::specs::PassingDistance::initial_parts, crate::specs::PassingDistance::left_lane_parts, crate::specs::PassingDistance::oncoming_parts))]
    fn parts(self) -> u64
        requires { manoeuvre_outside self ≡ false }
        ensures { result ≡ passing_parts self }
    {
        let t1 = u64::from(self.t1);
        let a = u64::from(self.a);
        let v = u64::from(self.v);
        let t2 = u64::from(self.t2);
        let passed = v - u64::from(self.m);
        let d1 = 417 * t1 * (200 * passed + a * t1);
        let d2 = 83400 * v * t2;
        let d3 = PASSING_METRE * u64::from(self.d3);
        let d4 = 55600 * v * t2;
        d1 + d2 + d3 + d4
    }
}

// The distance that a driver needs to see to pass another car.
#[tactic(auto, using(crate::proofs::PassingDistance::passing_bounds), unfolding(crate::specs::PassingDistance::passing_distance))]
pub fn passing_distance(w: Manoeuvre) -> Answer
    ensures { result ≡ passing_distance w }
{
    if w.is_outside() {
        return Err(Refusal::ManoeuvreOutside);
    }
    Ok(up_to_five(w.parts(), PASSING_METRE) as u32)
}
