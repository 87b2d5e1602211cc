// How a road file's road is marked and what it needs, in a direction, exported for the command vcp and the tests. An answer is a signed
// number, and a refusal is minus its number.
#![tactic(auto)]

ghost use Rattle.std.specs.Prelude.{◌≡◌};
ghost use Rattle.terms.specs.Answers.{signed};
ghost use Rattle.terms.specs.Limits.{greatest_long_road};
ghost use Rattle.road_marks.specs.RoadMarks.{mark_file_answer, mark_file_list};
ghost use Rattle.road_exports.specs.RoadExports.{file_distance, short_stations};

use terms::Answer;

// The distance that the road needs for a purpose, at its own speed and on the grade that it is marked with.
#[tactic(auto, using(file::proofs::Sound::verdict_read, file::proofs::Sound::road_read), unfolding(crate::specs::RoadExports::file_distance))]
fn file_distance(file: &[u8], back: bool, purpose: u32) -> Answer
    ensures { result ≡ file_distance file.now back purpose }
{
    let read = file::read(file, terms::GREATEST_LONG_ROAD);
    read.verdict?;
    let road = read.road;
    let grade = directions::driven_grade(back, road_distances::road_grade(road, back));
    distance::required_distance(u32::from(road.speed), purpose, grade)
}

// The stations of a road that the lister, the preview and the van's marking take.
#[tactic(auto, using(file::proofs::Sound::verdict_read, file::proofs::Sound::road_read), unfolding(crate::specs::RoadExports::short_stations))]
fn short_stations(file: &[u8]) -> Answer
    ensures { result ≡ short_stations file.now }
{
    let read = file::read(file, terms::GREATEST_SHORT_ROAD);
    read.verdict?;
    Ok(read.road.length + 1)
}

// The van's `vcp_mark_road_file` takes no road over 8,000 m; this takes any that is accepted.
#[unsafe(no_mangle)]
pub extern "C" fn vcp_mark_file(file: &[u8], back: bool, marks: &mut [u8]) -> i64
    ensures answer { result ≡ signed (mark_file_answer greatest_long_road file.now marks.old) }
    ensures list { marks.new ≡ mark_file_list greatest_long_road file.now back marks.old }
{
    terms::signed_answer(road_marks::mark_road_file(file, back, marks))
}

#[unsafe(no_mangle)]
pub extern "C" fn vcp_file_distance(file: &[u8], back: bool, purpose: u32) -> i64
    ensures { result ≡ signed (file_distance file.now back purpose) }
{
    terms::signed_answer(file_distance(file, back, purpose))
}

#[unsafe(no_mangle)]
pub extern "C" fn vcp_short_stations(file: &[u8]) -> i64
    ensures { result ≡ signed (short_stations file.now) }
{
    terms::signed_answer(short_stations(file))
}
