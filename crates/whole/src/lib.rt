// Whole numbers: division that rounds down, and in specs/ and proofs/ what the other crates define and prove by them.
#![tactic(auto)]

ghost use Rattle.std.specs.Prelude.{◌≡◌};
ghost use Rattle.whole.specs.Floor.{floor_div};

// `n / d` rounded down, and 0 where `d` is not positive.
#[tactic(auto, using(crate::proofs::Floor::floor_none, crate::proofs::Floor::floor_some))]
pub fn floor_div(n: i64, d: i64) -> i64
    ensures { result ≡ floor_div n d }
{
    if d <= 0 {
        return 0;
    }
    n.div_euclid(d)
}
