// The sag length exported for the command vcp and the tests. An answer is a signed number, and a refusal is minus its number.
#![tactic(auto)]

ghost use Rattle.std.specs.Prelude.{◌≡◌};
ghost use Rattle.terms.specs.Answers.{signed};
ghost use Rattle.curve_lengths.specs.Lengths.{sag_length};

#[unsafe(no_mangle)]
pub extern "C" fn vcp_sag_length(speed: u32, rise: u32, sight: u32) -> i64
    ensures { result ≡ signed (sag_length speed rise sight) }
{
    terms::signed_answer(curve_lengths::sag_length(speed, rise, sight))
}
