// Passing exported for the command vcp and the tests: the passing distance, and the passing marks of heights. An answer is a signed
// number, and a refusal is minus its number.
#![tactic(auto)]

ghost use Rattle.std.specs.Prelude.{◌≡◌};
ghost use Rattle.terms.specs.Answers.{signed};
ghost use Rattle.distance.specs.PassingDistance.{passing_distance};
ghost use Rattle.passing.specs.Passing.{passing_answer, passing_list};

use distance::Manoeuvre;

#[unsafe(no_mangle)]
pub extern "C" fn vcp_passing_distance(t1: u32, a: u32, v: u32, m: u32, t2: u32, d3: u32) -> i64
    ensures { result ≡ signed (passing_distance record { t1 = t1; a = a; v = v; m = m; t2 = t2; d3 = d3 }) }
{
    terms::signed_answer(distance::passing_distance(Manoeuvre {
        t1,
        a,
        v,
        m,
        t2,
        d3,
    }))
}

#[unsafe(no_mangle)]
pub extern "C" fn vcp_passing_marks(heights: &[i32], distance: u32, list: &mut [u8]) -> i64
    ensures answer { result ≡ signed (passing_answer heights.now distance list.old) }
    ensures list { list.new ≡ passing_list heights.now distance list.old }
{
    terms::signed_answer(passing::passing_marks(heights, distance, list))
}
