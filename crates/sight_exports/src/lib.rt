// Sight exported for the command vcp and the tests: a station's sight and the sights of all, in a direction. An answer is a signed
// number, and a refusal is minus its number.
#![tactic(auto)]

ghost use Rattle.std.specs.Prelude.{◌≡◌};
ghost use Rattle.terms.specs.Answers.{signed};
ghost use Rattle.sight.specs.Operations.{sight_answer, profile_answer, profile_list};

use verdicts::Look;

#[unsafe(no_mangle)]
pub extern "C" fn vcp_sight(
    heights: &[i32],
    back: bool,
    station: u32,
    eye: u32,
    object: u32,
    farthest: u32,
) -> i64
    ensures { result ≡ signed (sight_answer heights.now back station eye object farthest) }
{
    let look = Look {
        eye,
        object,
        farthest,
    };
    terms::signed_answer(sight::sight(heights, back, station, look))
}

#[unsafe(no_mangle)]
pub extern "C" fn vcp_sight_profile(
    heights: &[i32],
    back: bool,
    eye: u32,
    object: u32,
    farthest: u32,
    sights: &mut [u16],
) -> i64
    ensures answer { result ≡ signed (profile_answer heights.now eye object farthest sights.old) }
    ensures list { sights.new ≡ profile_list heights.now back eye object farthest sights.old }
{
    let look = Look {
        eye,
        object,
        farthest,
    };
    terms::signed_answer(sight::profile(heights, back, look, sights))
}
