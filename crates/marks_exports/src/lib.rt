// Marks exported for the command vcp and the tests: the marks of heights in a direction, the distances that they are taken with, and the
// zones of a bit of marks. An answer is a signed number, and a refusal is minus its number.
#![tactic(auto)]

ghost use Rattle.std.specs.Prelude.{◌≡◌};
ghost use Rattle.terms.specs.Answers.{signed};
ghost use Rattle.directions.specs.Directions.{driven_grade};
ghost use Rattle.distance.specs.Distance.{required_distance};
ghost use Rattle.marks.specs.Marks.{marks_answer, marks_list};
ghost use Rattle.zones.specs.Zones.{zones_answer, zones_list};

#[unsafe(no_mangle)]
pub extern "C" fn vcp_marks(
    speed: u32,
    purpose: u32,
    grade: i32,
    heights: &[i32],
    back: bool,
    list: &mut [u8],
) -> i64
    ensures answer { result ≡ signed (marks_answer speed purpose grade heights.now list.old) }
    ensures list { list.new ≡ marks_list speed purpose grade heights.now back list.old }
{
    terms::signed_answer(marks::marks(speed, purpose, grade, heights, back, list))
}

// The distance for a purpose in a direction, with the grade of rising stations.
#[unsafe(no_mangle)]
pub extern "C" fn vcp_driven_distance(speed: u32, purpose: u32, grade: i32, back: bool) -> i64
    ensures { result ≡ signed (required_distance speed purpose (driven_grade back grade)) }
{
    let driven = directions::driven_grade(back, grade);
    terms::signed_answer(distance::required_distance(speed, purpose, driven))
}

#[unsafe(no_mangle)]
pub extern "C" fn vcp_zones(marks: &[u8], bit: u32, list: &mut [u32]) -> i64
    ensures answer { result ≡ signed (zones_answer marks.now bit list.old) }
    ensures list { list.new ≡ zones_list marks.now bit list.old }
{
    terms::signed_answer(zones::zones(marks, bit, list))
}
