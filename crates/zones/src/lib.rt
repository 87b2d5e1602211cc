// docs/RULES.md, "Marks and zones": the zones of a bit.
#![tactic(auto)]

ghost use Rattle.std.specs.Prelude.{◌≡◌, ◌≤◌, ◌<◌, length};
ghost use Rattle.whole.specs.Placed.{placed};
ghost use Rattle.terms.specs.Limits.{last_bit};
ghost use Rattle.zones.specs.Zones.{has_bit, begins_at, ends_at, zone_ends, zone_count, zones_answer, zones_list, ZonesFit};

use terms::{Answer, Refusal};

// One bit of the marks, whose runs of stations are its zones.
#[derive(Clone, Copy)]
struct Layer<'a> {
    marks: &'a [u8],
    bit: u32,
    ghost in_range: { bit ≤ last_bit },
}

impl Layer<'_> {
    // Whether the mark of station `i` has the bit. Beyond the last station there is none.
    #[tactic(auto, unfolding(crate::specs::Zones::has_bit))]
    fn has(self, i: usize) -> bool
        ensures { result ≡ has_bit self.entry.marks.now self.entry.bit i }
    {
        let mark = self.marks.get(i).copied().unwrap_or(0);
        // the form of document 01: one chosen bit
        (mark >> self.bit) & 1 == 1
    }

    // Whether a zone begins at station `i`.
    #[tactic(auto, unfolding(crate::specs::Zones::begins_at))]
    fn begins_at(self, i: usize) -> bool
        ensures { result ≡ begins_at self.entry.marks.now self.entry.bit i }
    {
        // `&`: they are counted without a branch for each mark
        self.has(i) & (i == 0 || !self.has(i - 1))
    }

    // Whether a zone ends at station `i`.
    #[tactic(auto, using(crate::proofs::Laws::has_bit_beyond), unfolding(crate::specs::Zones::ends_at))]
    fn ends_at(self, i: usize) -> bool
        ensures { result ≡ ends_at self.entry.marks.now self.entry.bit i }
    {
        self.has(i) && !self.has(i + 1)
    }

    // How many zones there are.
    #[tactic(auto, using(crate::proofs::Laws::zones_at_most), unfolding(crate::specs::Zones::zone_count))]
    fn count(self) -> usize
        ensures { result ≡ zone_count self.entry.marks.now self.entry.bit (length self.entry.marks.now) }
    {
        let mut count = 0;
        // a chain of `filter` and `count` branches at each mark, and takes up to twice the time
        for i in 0..self.marks.len() {
            if self.begins_at(i) {
                count += 1;
            }
        }
        count
    }

    // Writes the first and the last station of each zone, from place 0 on.
    #[tactic(auto, using(crate::proofs::Laws::ends_room), unfolding(whole::specs::Placed::placed, crate::specs::Zones::zone_ends))]
    fn write(self, list: &mut [u32])
        requires { ZonesFit self.marks.now self.bit list.old }
        ensures { list.new ≡ placed (zone_ends self.entry.marks.now self.entry.bit (length self.entry.marks.now)) 0 list.old }
    {
        let mut at = 0;
        // `i` is the station that is stored
        for i in 0..self.marks.len() {
            if self.begins_at(i) {
                list[at] = i as u32;
                at += 1;
            }
            if self.ends_at(i) {
                list[at] = i as u32;
                at += 1;
            }
        }
    }
}

// The zones of a bit: the first and the last station of each, in pairs, ascending, into `list`. The answer is their number.
#[tactic(auto, using(crate::proofs::Laws::zones_at_most, crate::proofs::Laws::zones_list_placed), unfolding(crate::specs::Zones::zones_answer, crate::specs::Zones::zones_list))]
pub fn zones(marks: &[u8], bit: u32, list: &mut [u32]) -> Answer
    ensures answer { result ≡ zones_answer marks.now bit list.old }
    ensures list { list.new ≡ zones_list marks.now bit list.old }
{
    if terms::LAST_BIT < bit {
        return Err(Refusal::NoBit);
    }
    if terms::list_outside(marks.len()) {
        return Err(Refusal::ListOutside);
    }
    let layer = Layer { marks, bit };
    let count = layer.count();
    if list.len() < 2 * count {
        return Err(Refusal::NoZoneRoom);
    }
    layer.write(list);
    Ok(count as u32)
}
