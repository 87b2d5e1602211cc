// Trying another length, exported for the command vcp and the tests: the file of the changed road, and the preview, both from a road
// file. An answer is a signed number, and a refusal is minus its number.
#![tactic(auto)]

ghost use Rattle.std.specs.Prelude.{◌≡◌, Err, MatchResult};
ghost use Rattle.terms.specs.Answers.{signed, accepted};
ghost use Rattle.file.specs.File.{road_in};
ghost use Rattle.file.specs.Reading.{read_verdict};
ghost use Rattle.change.specs.Change.{with_length};
ghost use Rattle.preview_exports.specs.PreviewExports.{change_file_verdict, change_file_answer, change_file_list, preview_file_answer, preview_file_first, preview_file_second};

use road::Road;
use terms::{Answer, Refusal};

// A road file's road.
#[tactic(auto, using(file::proofs::Sound::verdict_read, file::proofs::Sound::road_read))]
fn road_of(file: &[u8]) -> Result<Road, Refusal>
    ensures { MatchResult result (λ r. (r ≡ road_in file.now) × (read_verdict file.now ≡ accepted)) (λ refusal. read_verdict file.now ≡ Err refusal) }
{
    let read = file::read(file, terms::GREATEST_LONG_ROAD);
    read.verdict?;
    Ok(read.road)
}

// It with another length at one of its curves.
#[tactic(auto, using(file::proofs::Sound::places_in, change::proofs::Laws::accepted_length), unfolding(crate::specs::PreviewExports::change_file_verdict))]
fn changed_road(file: &[u8], place: u32, length: u32) -> Result<Road, Refusal>
    ensures { MatchResult result (λ r. (r ≡ with_length (road_in file.now) place length) × (change_file_verdict file.now place length ≡ accepted)) (λ refusal. change_file_verdict file.now place length ≡ Err refusal) }
{
    let road = road_of(file)?;
    change::change_verdict(road, terms::GREATEST_LONG_ROAD, place, length)?;
    Ok(change::with_length(road, place, length as u16))
}

// Its file.
#[tactic(auto, unfolding(crate::specs::PreviewExports::change_file_answer, crate::specs::PreviewExports::change_file_list))]
fn change_length(file: &[u8], place: u32, length: u32, out: &mut [u8]) -> Answer
    ensures answer { result ≡ change_file_answer file.now place length out.old }
    ensures list { out.new ≡ change_file_list file.now place length out.old }
{
    writing::write(changed_road(file, place, length)?, out)
}

// The preview of a road file's road.
#[tactic(auto, using(file::proofs::Sound::verdict_read, file::proofs::Sound::road_read), unfolding(crate::specs::PreviewExports::preview_file_answer, crate::specs::PreviewExports::preview_file_first, crate::specs::PreviewExports::preview_file_second))]
fn preview_file(file: &[u8], place: u32, length: u32, before: &mut [u8], after: &mut [u8]) -> Answer
    ensures answer { result ≡ preview_file_answer file.now place length before.old after.old }
    ensures first { before.new ≡ preview_file_first file.now place length before.old after.old }
    ensures second { after.new ≡ preview_file_second file.now place length before.old after.old }
{
    let read = file::read(file, terms::GREATEST_SHORT_ROAD);
    read.verdict?;
    preview::preview(read.road, place, length, before, after)
}

#[unsafe(no_mangle)]
pub extern "C" fn vcp_change_length(file: &[u8], place: u32, length: u32, out: &mut [u8]) -> i64
    ensures answer { result ≡ signed (change_file_answer file.now place length out.old) }
    ensures list { out.new ≡ change_file_list file.now place length out.old }
{
    terms::signed_answer(change_length(file, place, length, out))
}

#[unsafe(no_mangle)]
pub extern "C" fn vcp_preview(
    file: &[u8],
    place: u32,
    length: u32,
    before: &mut [u8],
    after: &mut [u8],
) -> i64
    ensures answer { result ≡ signed (preview_file_answer file.now place length before.old after.old) }
    ensures first { before.new ≡ preview_file_first file.now place length before.old after.old }
    ensures second { after.new ≡ preview_file_second file.now place length before.old after.old }
{
    terms::signed_answer(preview_file(file, place, length, before, after))
}
