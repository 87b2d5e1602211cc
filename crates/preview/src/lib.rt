// docs/RULES.md, "Trying another length": the preview, which marks a road as it is and as changed and counts where the marks differ.
#![tactic(auto)]

ghost use Rattle.std.specs.Prelude.{◌+◌, ◌≤◌, ◌≡◌, ◌==◌, not, take, count_by};
ghost use Rattle.std.specs.List.{zip};
ghost use Rattle.terms.specs.Limits.{greatest_short_road};
ghost use Rattle.preview.specs.Preview.{preview_answer, preview_first, preview_second};

use road::Road;
use terms::{Answer, Refusal};

// At how many of the first so many places two lists differ. The lists are the caller's and may be longer.
fn count_differing(first: &[u8], second: &[u8], stations: usize) -> u32
    requires { stations ≤ greatest_short_road + 1 }
    ensures { result ≡ count_by (λ p. not (p.0 == p.1)) (take stations (zip first.now second.now)) }
{
    let places = first.iter().zip(second).take(stations);
    places.filter(|(a, b)| a != b).count() as u32
}

// Marks a road of 8,000 m at most as it is into the first list and the road with another length of one curve into the second, and
// answers at how many stations the marks differ. All is tested before anything is written.
#[tactic(auto, using(change::proofs::Laws::accepted_length, crate::proofs::Ends::few, crate::proofs::Ends::compared), unfolding(crate::specs::Preview::preview_verdict, crate::specs::Preview::preview_answer, crate::specs::Preview::preview_first, crate::specs::Preview::preview_second))]
pub fn preview(road: Road, place: u32, length: u32, first: &mut [u8], second: &mut [u8]) -> Answer
    ensures answer { result ≡ preview_answer road place length first.old second.old }
    ensures first { first.new ≡ preview_first road place length first.old second.old }
    ensures second { second.new ≡ preview_second road place length first.old second.old }
{
    let most = terms::GREATEST_SHORT_ROAD;
    change::change_verdict(road, most, place, length)?;
    let stations = road.length as usize + 1;
    if first.len() < stations || second.len() < stations {
        return Err(Refusal::NoRoom);
    }
    let changed = change::with_length(road, place, length as u16);
    let _ = road_marks::mark_short_road(road, first);
    let _ = road_marks::mark_short_road(changed, second);
    Ok(count_differing(first, second, stations))
}
