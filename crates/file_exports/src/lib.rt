// Road files exported for the command vcp and the tests: a file written again, and the heights and the steepest downgrade of a file's
// road. An answer is a signed number, and a refusal is minus its number.
#![tactic(auto)]

ghost use Rattle.std.specs.Prelude.{◌≡◌};
ghost use Rattle.terms.specs.Answers.{signed};
ghost use Rattle.file_exports.specs.FileExports.{rewrite_answer, rewrite_list, file_heights_answer, file_heights_list, file_downgrade};

use terms::Answer;

// A road file read and written again.
#[tactic(auto, using(file::proofs::Sound::verdict_read, file::proofs::Sound::road_read), unfolding(crate::specs::FileExports::rewrite_answer, crate::specs::FileExports::rewrite_list))]
fn rewrite(file: &[u8], out: &mut [u8]) -> Answer
    ensures answer { result ≡ rewrite_answer file.now out.old }
    ensures list { out.new ≡ rewrite_list file.now out.old }
{
    let read = file::read(file, terms::GREATEST_LONG_ROAD);
    read.verdict?;
    writing::write(read.road, out)
}

// A road file read and the heights of its road filled.
#[tactic(auto, using(file::proofs::Sound::verdict_read, file::proofs::Sound::road_read), unfolding(crate::specs::FileExports::file_heights_answer, crate::specs::FileExports::file_heights_list))]
fn file_heights(file: &[u8], list: &mut [i32]) -> Answer
    ensures answer { result ≡ file_heights_answer file.now list.old }
    ensures list { list.new ≡ file_heights_list file.now list.old }
{
    let read = file::read(file, terms::GREATEST_LONG_ROAD);
    read.verdict?;
    heights::heights(read.road, list)
}

// The grade that the road is marked with is never positive, and towards falling stations never negative. A negative answer would be a
// refusal: so it is answered without its sign.
#[tactic(auto, using(file::proofs::Sound::verdict_read, file::proofs::Sound::road_read), unfolding(crate::specs::FileExports::file_downgrade))]
fn file_downgrade(file: &[u8], back: bool) -> Answer
    ensures { result ≡ file_downgrade file.now back }
{
    let read = file::read(file, terms::GREATEST_LONG_ROAD);
    read.verdict?;
    Ok(road_distances::road_grade(read.road, back).unsigned_abs())
}

#[unsafe(no_mangle)]
pub extern "C" fn vcp_rewrite(file: &[u8], out: &mut [u8]) -> i64
    ensures answer { result ≡ signed (rewrite_answer file.now out.old) }
    ensures list { out.new ≡ rewrite_list file.now out.old }
{
    terms::signed_answer(rewrite(file, out))
}

#[unsafe(no_mangle)]
pub extern "C" fn vcp_file_heights(file: &[u8], list: &mut [i32]) -> i64
    ensures answer { result ≡ signed (file_heights_answer file.now list.old) }
    ensures list { list.new ≡ file_heights_list file.now list.old }
{
    terms::signed_answer(file_heights(file, list))
}

#[unsafe(no_mangle)]
pub extern "C" fn vcp_file_downgrade(file: &[u8], back: bool) -> i64
    ensures { result ≡ signed (file_downgrade file.now back) }
{
    terms::signed_answer(file_downgrade(file, back))
}
