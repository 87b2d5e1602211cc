// The slow engine of sight, a station's sight and the sights of all, and how many sight lines the quick one compares, in a direction,
// exported for the command vcp and the tests. An answer is a signed number, and a refusal is minus its number.
#![tactic(auto)]

ghost use Rattle.std.specs.Prelude.{◌≡◌};
ghost use Rattle.terms.specs.Answers.{signed};
ghost use Rattle.sight.specs.Operations.{sight_answer, profile_answer, profile_list};
ghost use Rattle.sight.specs.Comparisons.{comparisons_answer};

use verdicts::Look;

#[unsafe(no_mangle)]
pub extern "C" fn vcp_slow_sight(
    heights: &[i32],
    back: bool,
    station: u32,
    eye: u32,
    object: u32,
    farthest: u32,
) -> i64
    ensures { result ≡ signed (sight_answer heights.now back station eye object farthest) }
{
    let look = Look {
        eye,
        object,
        farthest,
    };
    terms::signed_answer(slow_sight::sight(heights, back, station, look))
}

#[unsafe(no_mangle)]
pub extern "C" fn vcp_slow_sight_profile(
    heights: &[i32],
    back: bool,
    eye: u32,
    object: u32,
    farthest: u32,
    sights: &mut [u16],
) -> i64
    ensures answer { result ≡ signed (profile_answer heights.now eye object farthest sights.old) }
    ensures list { sights.new ≡ profile_list heights.now back eye object farthest sights.old }
{
    let look = Look {
        eye,
        object,
        farthest,
    };
    terms::signed_answer(slow_sight::profile(heights, back, look, sights))
}

#[unsafe(no_mangle)]
pub extern "C" fn vcp_sight_comparisons(
    heights: &[i32],
    back: bool,
    station: u32,
    eye: u32,
    object: u32,
    farthest: u32,
) -> i64
    ensures { result ≡ signed (comparisons_answer heights.now back station eye object farthest) }
{
    let look = Look {
        eye,
        object,
        farthest,
    };
    terms::signed_answer(sight::comparisons(heights, back, station, look))
}
