// The listing exported for the command vcp and the tests: the text of a road file. An answer is a signed number, and a refusal is
// minus its number.
#![tactic(auto)]

ghost use Rattle.std.specs.Prelude.{◌≡◌};
ghost use Rattle.terms.specs.Answers.{signed};
ghost use Rattle.listing.specs.Listing.{list_answer, list_buffer};

#[unsafe(no_mangle)]
pub extern "C" fn vcp_list_road_file(file: &[u8], text: &mut [u8]) -> i64
    ensures answer { result ≡ signed (list_answer file.now text.old) }
    ensures list { text.new ≡ list_buffer file.now text.old }
{
    terms::signed_answer(listing::list_road_file(file, text))
}
