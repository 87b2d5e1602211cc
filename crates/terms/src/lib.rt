// The answer of an operation and the verdict on a road, the refusals, the tests of ranges, and the limits of docs/RULES.md. The definitions
// name the refusals' own variants, and the limits in specs/Limits.antt.
#![tactic(auto)]

ghost use Rattle.std.specs.Prelude.{◌≡◌};
ghost use Rattle.terms.specs.Answers.{outside, grade_outside, list_outside, eye_or_object_outside, value_or_zero, signed};
ghost use Rattle.terms.specs.Refusals.{number};

// Why an operation refuses: the refusals of docs/RULES.md, each with its number.
#[derive(Clone, Copy, Debug, PartialEq, Eq)]
pub enum Refusal {
    // a file of fewer than 16 bytes, or of version 2 and fewer than 18
    ShortFile = 1,
    // a file that does not begin with the letters VCP
    WrongLetters = 2,
    // version not 1 or 2
    WrongVersion = 3,
    // number of curves over 32
    TooManyCurves = 4,
    // total length of a file wrong
    WrongTotal = 5,
    // speed not 20 to 130
    SpeedOutside = 6,
    // purpose not one of those asked for
    WrongPurpose = 7,
    // length of the road not 1 to 8,000, or to 100,000 in version 2
    RoadLengthOutside = 8,
    // start height not −10,000,000 to 90,000,000
    StartOutside = 9,
    // a grade not −1,500 to 1,500
    GradeOutside = 10,
    // length of a curve odd or over 2,000
    WrongCurveLength = 11,
    // a curve begins before 0 or ends after N
    CurveOffRoad = 12,
    // a curve begins before the end of the one listed just before it
    CurvesOverlap = 13,
    // a lent list or buffer is too short
    NoRoom = 14,
    // drop or rise in grade not 1 to 3,000
    GradeChangeOutside = 15,
    // sight distance not 1 to 800
    SightDistanceOutside = 16,
    // height of the eye or of the object not 1 to 50,000
    HeightOutside = 17,
    // no even length up to 2,000 is adequate
    NoLength = 18,
    // a list of heights or marks empty or longer than 100,001
    ListOutside = 19,
    // a station beyond the last
    NoStation = 20,
    // farthest distance or passing distance not 1 to 8,000
    FarthestOutside = 21,
    // bit number over 6
    NoBit = 22,
    // a lent list with fewer than two numbers for each zone
    NoZoneRoom = 23,
    // one of the six values of a passing manoeuvre out of its range
    ManoeuvreOutside = 24,
    // a plain break in grade whose grades differ by more than 50
    SharpBreak = 25,
    // a place beyond the last curve
    NoCurve = 26,
    // a road over 8,000 m of which a file of version 1 is wanted
    LongRoad = 27,
}

// The value, or why it is refused.
pub type Answer = Result<u32, Refusal>;

// Whether a road, a file or the numbers of an operation are accepted, or its first fault.
pub type Verdict = Result<(), Refusal>;

impl Refusal {
    // Its number in docs/RULES.md.
    pub fn number(self) -> u8
        ensures { result ≡ number self }
    {
        self as u8
    }
}

// ---- limits
// Speeds in km/h.
pub const LEAST_SPEED: u32 = 20;

pub const GREATEST_SPEED: u32 = 130;

// The purpose of stopping, and the last one of the table of reaction times.
pub const STOPPING_PURPOSE: u32 = 0;

pub const LAST_PURPOSE: u32 = 5;

// The versions of a road and of its file.
pub const FIRST_VERSION: u32 = 1;

pub const SECOND_VERSION: u32 = 2;

// The length of a road in metres: of version 1, and of any that the lister, the preview and the van's marking take; and of version 2.
pub const GREATEST_SHORT_ROAD: u32 = 8000;

pub const GREATEST_LONG_ROAD: u32 = 100000;

// How many stations such roads have.
pub const SHORT_STATIONS: usize = GREATEST_SHORT_ROAD as usize + 1;

pub const LONG_STATIONS: usize = GREATEST_LONG_ROAD as usize + 1;

// A road: its decision purposes begin at 1; its start height in h-units, its number of curves and the length of one in metres; and
// a grade, the road's or one that is handed over, in hundredths of a percent up or down.
pub const FIRST_DECISION: u32 = 1;

pub const LOWEST_START: i32 = -10000000;

pub const HIGHEST_START: i32 = 90000000;

pub const GREATEST_GRADE: i32 = 1500;

pub const GREATEST_CURVE_COUNT: u8 = 32;

pub const GREATEST_CURVE: u16 = 2000;

// By how much the grades of a plain break may differ, in hundredths of a percent.
pub const GREATEST_BREAK: i32 = 50;

// A crest or a sag: its drop or rise in grade, in hundredths of a percent; its sight distance and the length that is answered, in
// metres.
pub const GREATEST_GRADE_CHANGE: u32 = 3000;

pub const GREATEST_SIGHT_DISTANCE: u32 = 800;

pub const GREATEST_ANSWERED_LENGTH: u32 = 2000;

// The height of an eye or an object, in h-units.
pub const GREATEST_HEIGHT: u32 = 50000;

// A list of heights or marks.
pub const GREATEST_LIST: usize = 100001;

// The farthest distance that is looked at, in metres.
pub const GREATEST_FARTHEST: u32 = 8000;

// The last bit that zones are asked for.
pub const LAST_BIT: u32 = 6;

// The heights of the eye, 1.08 m, and of the object, 0.60 m, in h-units, that a road is marked with.
pub const EYE_HEIGHT: u32 = 10800;

pub const OBJECT_HEIGHT: u32 = 6000;

// The height, 1.08 m, of what has to be seen of an oncoming car before one passes.
pub const PASSING_OBJECT_HEIGHT: u32 = 10800;

// Passing: the time t1 of the initial manoeuvre and t2 in the left lane in tenths of a second, the acceleration a in hundredths of
// km/h per second, the speed v of the passing car and its difference m to the other's in tenths of km/h, the clearance d3 in metres.
pub const LEAST_INITIAL_TIME: u32 = 36;

pub const GREATEST_INITIAL_TIME: u32 = 45;

pub const LEAST_ACCELERATION: u32 = 225;

pub const GREATEST_ACCELERATION: u32 = 241;

pub const LEAST_PASSING_SPEED: u32 = 300;

pub const GREATEST_PASSING_SPEED: u32 = 1300;

pub const LEAST_SPEED_DIFFERENCE: u32 = 100;

pub const GREATEST_SPEED_DIFFERENCE: u32 = 200;

pub const LEAST_LEFT_LANE_TIME: u32 = 93;

pub const GREATEST_LEFT_LANE_TIME: u32 = 113;

pub const LEAST_CLEARANCE: u32 = 30;

pub const GREATEST_CLEARANCE: u32 = 90;

// Whether `x` is not `low` to `high`.
pub fn outside(low: u32, high: u32, x: u32) -> bool
    ensures { result ≡ outside low high x }
{
    !(low..=high).contains(&x)
}

// Whether a grade is out of its range.
pub fn grade_outside(grade: i32) -> bool
    ensures { result ≡ grade_outside grade }
{
    !(-GREATEST_GRADE..=GREATEST_GRADE).contains(&grade)
}

// Whether a list of heights or marks is empty or too long.
pub fn list_outside(length: usize) -> bool
    ensures { result ≡ list_outside length }
{
    !(1..=GREATEST_LIST).contains(&length)
}

// Whether the height of the eye or that of the object is out of its range.
pub fn eye_or_object_outside(eye: u32, object: u32) -> bool
    ensures { result ≡ eye_or_object_outside eye object }
{
    outside(1, GREATEST_HEIGHT, eye) || outside(1, GREATEST_HEIGHT, object)
}

// The value of an answer, 0 for a refusal.
pub fn value_or_zero(answer: Answer) -> u32
    ensures { result ≡ value_or_zero answer }
{
    answer.unwrap_or(0)
}

// The answer as one signed number, a refusal being minus its number.
pub fn signed_answer(answer: Answer) -> i64
    ensures { result ≡ signed answer }
{
    match answer {
        Ok(n) => i64::from(n),
        Err(refusal) => -i64::from(refusal.number()),
    }
}
