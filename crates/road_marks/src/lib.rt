// docs/RULES.md, "Marks and zones": the marks of a road and of a road file, up to 100,000 m in either direction, or up to 8,000 m towards
// rising stations.
#![tactic(auto)]

ghost use Rattle.std.specs.Prelude.{◌-◌, ◌≤◌, ◌≡◌};
ghost use Rattle.terms.specs.Limits.{greatest_list, greatest_short_road, greatest_long_road};
ghost use Rattle.directions.specs.Directions.{forward};
ghost use Rattle.road_marks.specs.RoadMarks.{mark_road_answer, mark_road_list, mark_file_answer, mark_file_list};

use road::Road;
use terms::{Answer, LONG_STATIONS, SHORT_STATIONS};

// Marks a road of at most `STATIONS` stations by its own heights, which are filled into a list with a place for each, and by its speed,
// purpose and grade, in a direction.
#[tactic(auto, using(crate::proofs::Taken::taken_stations, crate::proofs::Taken::taken_list), unfolding(crate::specs::RoadMarks::mark_road_answer, crate::specs::RoadMarks::mark_road_list))]
fn mark_up_to<const STATIONS: usize>(road: Road, back: bool, list: &mut [u8]) -> Answer
    requires { (1 ≤ STATIONS) × (STATIONS ≤ greatest_list) }
    ensures answer { result ≡ mark_road_answer (STATIONS - 1) road list.old }
    ensures list { list.new ≡ mark_road_list (STATIONS - 1) road back list.old }
{
    road.verdict(STATIONS as u32 - 1)?;
    let grade = road_distances::road_grade(road, back);
    let mut heights = [0i32; STATIONS];
    let _ = heights::heights(road, &mut heights);
    let stations = road.length as usize + 1;
    let speed = u32::from(road.speed);
    let purpose = u32::from(road.purpose);
    marks::marks(speed, purpose, grade, &heights[..stations], back, list)
}

// Marks a road file, whose road has at most `STATIONS` stations, in a direction.
#[tactic(auto, using(file::proofs::Sound::verdict_read, file::proofs::Sound::road_read), unfolding(crate::specs::RoadMarks::mark_road_list, crate::specs::RoadMarks::mark_file_answer, crate::specs::RoadMarks::mark_file_list))]
fn mark_file_up_to<const STATIONS: usize>(file: &[u8], back: bool, list: &mut [u8]) -> Answer
    requires { (1 ≤ STATIONS) × (STATIONS ≤ greatest_list) }
    ensures answer { result ≡ mark_file_answer (STATIONS - 1) file.now list.old }
    ensures list { list.new ≡ mark_file_list (STATIONS - 1) file.now back list.old }
{
    let read = file::read(file, STATIONS as u32 - 1);
    read.verdict?;
    mark_up_to::<STATIONS>(read.road, back, list)
}

// Marks a road in a direction.
pub fn mark_road(road: Road, back: bool, list: &mut [u8]) -> Answer
    ensures answer { result ≡ mark_road_answer greatest_long_road road list.old }
    ensures list { list.new ≡ mark_road_list greatest_long_road road back list.old }
{
    mark_up_to::<LONG_STATIONS>(road, back, list)
}

// Marks, towards rising stations, a road of 8,000 m at most, over a list of heights that is laid out in less than a tenth of the time.
pub fn mark_short_road(road: Road, list: &mut [u8]) -> Answer
    ensures answer { result ≡ mark_road_answer greatest_short_road road list.old }
    ensures list { list.new ≡ mark_road_list greatest_short_road road forward list.old }
{
    mark_up_to::<SHORT_STATIONS>(road, directions::FORWARD, list)
}

// Marks a road file in a direction.
pub fn mark_road_file(file: &[u8], back: bool, list: &mut [u8]) -> Answer
    ensures answer { result ≡ mark_file_answer greatest_long_road file.now list.old }
    ensures list { list.new ≡ mark_file_list greatest_long_road file.now back list.old }
{
    mark_file_up_to::<LONG_STATIONS>(file, back, list)
}

// Marks, towards rising stations, a road file whose road has 8,000 m at most.
pub fn mark_short_road_file(file: &[u8], list: &mut [u8]) -> Answer
    ensures answer { result ≡ mark_file_answer greatest_short_road file.now list.old }
    ensures list { list.new ≡ mark_file_list greatest_short_road file.now forward list.old }
{
    mark_file_up_to::<SHORT_STATIONS>(file, directions::FORWARD, list)
}
