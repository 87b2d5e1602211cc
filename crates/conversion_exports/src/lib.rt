// Converting a road file, exported for the command vcp and the tests. An answer is a signed number, and a refusal is minus its number.
#![tactic(auto)]

ghost use Rattle.std.specs.Prelude.{◌≡◌};
ghost use Rattle.terms.specs.Answers.{signed};
ghost use Rattle.conversion.specs.Conversion.{convert_answer, convert_list};

#[unsafe(no_mangle)]
pub extern "C" fn vcp_convert(file: &[u8], out: &mut [u8]) -> i64
    ensures answer { result ≡ signed (convert_answer file.now out.old) }
    ensures list { out.new ≡ convert_list file.now out.old }
{
    terms::signed_answer(conversion::convert(file, out))
}
