// The mirror of a road file's road, exported for the tests: the file of the mirror. An answer is a signed number, and a refusal is minus
// its number.
#![tactic(auto)]

ghost use Rattle.std.specs.Prelude.{◌≡◌};
ghost use Rattle.terms.specs.Answers.{signed};
ghost use Rattle.mirror_exports.specs.MirrorExports.{mirror_file_answer, mirror_file_list};

use terms::Answer;

// The file of the mirror of a file's road.
#[tactic(auto, unfolding(crate::specs::MirrorExports::mirror_file_answer, crate::specs::MirrorExports::mirror_file_list, crate::specs::MirrorExports::mirror_file_verdict, mirror::specs::Mirror::mirror_of, file::specs::Reading::read_up_to))]
fn mirror_file(file: &[u8], out: &mut [u8]) -> Answer
    ensures answer { result ≡ mirror_file_answer file.now out.old }
    ensures list { out.new ≡ mirror_file_list file.now out.old }
{
    let read = file::read(file, terms::GREATEST_LONG_ROAD);
    read.verdict?;
    let mirrored = mirror::mirror(read.road);
    mirrored.verdict?;
    writing::write(mirrored.road, out)
}

#[unsafe(no_mangle)]
pub extern "C" fn vcp_mirror(file: &[u8], out: &mut [u8]) -> i64
    ensures answer { result ≡ signed (mirror_file_answer file.now out.old) }
    ensures list { out.new ≡ mirror_file_list file.now out.old }
{
    terms::signed_answer(mirror_file(file, out))
}
