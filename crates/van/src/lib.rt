// What the survey van's Rust program calls (docs/RULES.md, "The lister"): functions on numbers and byte slices. An answer is
// a signed 32-bit number, and a refusal is minus its number.
#![tactic(auto)]

ghost use Rattle.std.specs.Prelude.{◌≡◌};
ghost use Rattle.terms.specs.Answers.{signed};
ghost use Rattle.terms.specs.Limits.{greatest_short_road};
ghost use Rattle.directions.specs.Directions.{forward};
ghost use Rattle.distance.specs.Distance.{required_distance};
ghost use Rattle.curve_lengths.specs.Lengths.{crest_length};
ghost use Rattle.road_marks.specs.RoadMarks.{mark_file_answer, mark_file_list};

#[unsafe(no_mangle)]
pub extern "C" fn vcp_required_distance(speed: u32, purpose: u32, grade: i32) -> i32
    ensures { result ≡ signed (required_distance speed purpose grade) }
{
    terms::signed_answer(distance::required_distance(speed, purpose, grade)) as i32
}

#[unsafe(no_mangle)]
pub extern "C" fn vcp_crest_length(speed: u32, drop: u32, sight: u32, eye: u32, object: u32) -> i32
    ensures { result ≡ signed (crest_length speed drop sight eye object) }
{
    terms::signed_answer(curve_lengths::crest_length(speed, drop, sight, eye, object)) as i32
}

// Towards rising stations; no road over 8,000 m is taken.
#[unsafe(no_mangle)]
pub extern "C" fn vcp_mark_road_file(file: &[u8], marks: &mut [u8]) -> i32
    ensures answer { result ≡ signed (mark_file_answer greatest_short_road file.now marks.old) }
    ensures list { marks.new ≡ mark_file_list greatest_short_road file.now forward marks.old }
{
    terms::signed_answer(road_marks::mark_short_road_file(file, marks)) as i32
}
