// docs/RULES.md, "Converting a file": a road file of either version made into one of the other, with the same road apart from its
// version.
#![tactic(auto)]

ghost use Rattle.std.specs.Prelude.{◌≡◌};
ghost use Rattle.conversion.specs.Conversion.{other_version, in_version, too_long_for, convert_answer, convert_list};

use file::ReadRoad;
use road::Road;
use terms::{Answer, Refusal};

// The version that a file of this one is converted to.
fn other_version(version: u32) -> u32
    ensures { result ≡ other_version version }
{
    if version == terms::SECOND_VERSION {
        terms::FIRST_VERSION
    } else {
        terms::SECOND_VERSION
    }
}

// Whether a road is over 8,000 m and version 1 is wanted.
fn too_long_for(wanted: u32, road: Road) -> bool
    ensures { result ≡ too_long_for wanted road }
{
    wanted == terms::FIRST_VERSION && terms::GREATEST_SHORT_ROAD < road.length
}

// The same road in another version. A function of its own: within `convert` the proof would read the signed fields back one by one.
#[tactic(auto, unfolding(crate::specs::Conversion::in_version))]
fn in_version(version: u32, road: Road) -> Road
    ensures { result ≡ in_version version road }
{
    Road { version, ..road }
}

// Writes the file of the other version at the front of a buffer, and answers how many bytes that is. Refused as reading is, then by
// 27 and by 14; the buffer is then as it was.
#[tactic(auto, using(file::proofs::Sound::verdict_read, file::proofs::Sound::road_read), unfolding(crate::specs::Conversion::convert_verdict, crate::specs::Conversion::convert_answer, crate::specs::Conversion::convert_list))]
pub fn convert(file: &[u8], out: &mut [u8]) -> Answer
    ensures answer { result ≡ convert_answer file.now out.old }
    ensures list { out.new ≡ convert_list file.now out.old }
{
    let ReadRoad { verdict, road } = file::read(file, terms::GREATEST_LONG_ROAD);
    verdict?;
    let wanted = other_version(road.version);
    if too_long_for(wanted, road) {
        return Err(Refusal::LongRoad);
    }
    writing::write(in_version(wanted, road), out)
}
