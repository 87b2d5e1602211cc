// docs/RULES.md, "The lister": the text of a road file.
#![tactic(auto)]

ghost use Rattle.std.specs.Prelude.{◌≡◌, [], ◌∷◌, ◌+◌, ◌≤◌, ◌<◌, length, get_or};
ghost use Rattle.terms.specs.Limits.{greatest_short_road};
ghost use Rattle.terms.specs.Answers.{accepted};
ghost use Rattle.road.specs.Road.{short_road_verdict};
ghost use Rattle.listing.specs.Listing.{digit, item, line, bit_letters, bit_lines, zones_text, road_text, listing, list_answer, list_buffer};
ghost use Rattle.listing.specs.Put.{put, pair_lines};

use road::Road;
use std::marker::Model;
use terms::{Answer, Refusal};

// One space parts the items of a line, and every line ends with a line feed.
const SPACE: u8 = b' ';

const LINE_FEED: u8 = b'\n';

// The letters of bits 0 to 4.
const LETTERS: &[u8; 5] = b"SDRsd";

// Zones of a bit: between two of them there is a station without it.
const MOST_ZONES: usize = (terms::SHORT_STATIONS + 1) / 2;

// Bytes that hold any listing: a first line has at most 22, and the line of a zone at most 14.
pub const GREATEST_LISTING: usize = 22 + 14 * MOST_ZONES * LETTERS.len();

// The text that is written so far, without heap: an array that holds any listing. What would find no room in it is left out.
#[derive(Drop)]
struct Text {
    bytes: [u8; GREATEST_LISTING],
    length: usize,
}

impl Model for Text {
    ghost use Rattle.std.specs.Prelude.{List, ℕ, ◌≤◌, take};
    ghost use Rattle.listing.specs.Put.{greatest_listing};

    ghost Value = { List ℕ };

    ghost view = { λ t. take t.length t.bytes };

    ghost invariant = { λ t. t.length ≤ greatest_listing };
}

impl Text {
    fn new() -> Text
        ensures { result ≡ [] }
    {
        Text {
            bytes: [0; GREATEST_LISTING],
            length: 0,
        }
    }

    fn as_slice(&self) -> &[u8]
        ensures { result.now ≡ self.now }
    {
        &self.bytes[..self.length]
    }

    // Writes one byte.
    #[tactic(auto, using(crate::proofs::Put::put_byte, crate::proofs::Put::put_full))]
    fn byte(&mut self, byte: u8)
        ensures { self.new ≡ put self.old (byte ∷ []) }
    {
        if self.length < GREATEST_LISTING {
            self.bytes[self.length] = byte;
            self.length += 1;
        }
    }

    // Writes a word.
    #[tactic(auto, using(crate::proofs::Put::put_none, crate::proofs::Put::put_more))]
    fn word(&mut self, word: &[u8])
        ensures { self.new ≡ put self.old word.now }
    {
        for &byte in word {
            self.byte(byte);
        }
    }

    // Writes the digit of the place that counts `p`, or nothing where `x` is below it.
    #[tactic(auto, using(crate::proofs::Put::put_none), unfolding(crate::specs::Listing::digit))]
    fn digit(&mut self, p: u32, x: u32)
        requires { 0 < p }
        ensures { self.new ≡ put self.old (digit p x) }
    {
        if p <= x {
            self.byte(b'0' + (x / p % 10) as u8);
        }
    }

    // Writes a space and a number below 100,000. By its five places, as the definition has it for every number: `{}` has more.
    #[tactic(auto, using(crate::proofs::Put::put_join), unfolding(crate::specs::Listing::item))]
    fn item(&mut self, x: u32)
        ensures { self.new ≡ put self.old (item x) }
    {
        self.byte(SPACE);
        self.digit(10000, x);
        self.digit(1000, x);
        self.digit(100, x);
        self.digit(10, x);
        self.byte(b'0' + (x % 10) as u8);
    }

    // Writes a line of a word and numbers.
    #[tactic(auto, using(crate::proofs::Put::put_none, crate::proofs::Put::put_join), unfolding(crate::specs::Listing::line, crate::specs::Listing::joined))]
    fn line(&mut self, word: &[u8], numbers: &[u32])
        ensures { self.new ≡ put self.old (line word.now numbers.now) }
    {
        self.word(word);
        for &number in numbers {
            self.item(number);
        }
        self.byte(LINE_FEED);
    }

    // Writes the lines of zones of a letter, from the first and the last station of each.
    #[tactic(auto, using(crate::proofs::Put::put_none, crate::proofs::Put::put_join), unfolding(crate::specs::Listing::joined))]
    fn zone_lines(&mut self, letter: u8, zones: &[[u32; 2]])
        ensures { self.new ≡ put self.old (pair_lines letter zones.now) }
    {
        for zone in zones {
            self.line(&[letter], zone);
        }
    }

    // Writes the zones of a bit of the marks, which has this letter.
    #[tactic(auto, using(crate::proofs::Lent::bit_zones))]
    fn bit_lines(&mut self, letter: u8, marks: &[u8], bit: u32)
        requires { (bit < length bit_letters) × (letter ≡ get_or bit_letters bit 0) × (0 < length marks.now) × (length marks.now ≤ greatest_short_road + 1) }
        ensures { self.new ≡ put self.old (bit_lines marks.now bit) }
    {
        let mut ends = [0; 2 * MOST_ZONES];
        let count = zones::zones(marks, bit, &mut ends).unwrap_or(0) as usize;
        let (pairs, _) = ends[..2 * count].as_chunks();
        self.zone_lines(letter, pairs);
    }

    // Writes the zones of all letters.
    #[tactic(auto, using(crate::proofs::Put::put_none, crate::proofs::Put::put_join), unfolding(crate::specs::Listing::joined))]
    fn zones_text(&mut self, marks: &[u8])
        requires { (0 < length marks.now) × (length marks.now ≤ greatest_short_road + 1) }
        ensures { self.new ≡ put self.old (zones_text marks.now) }
    {
        for (bit, &letter) in LETTERS.iter().enumerate() {
            self.bit_lines(letter, marks, bit as u32);
        }
    }

    // Writes the text of a road that is listed.
    #[tactic(auto, using(crate::proofs::Lent::road_marks), unfolding(crate::specs::Listing::road_text))]
    fn road(&mut self, road: Road)
        requires { short_road_verdict road ≡ accepted }
        ensures { self.new ≡ put self.old (road_text road) }
    {
        let speed = u32::from(road.speed);
        let needed = road_distances::road_distances(road, directions::FORWARD);
        self.line(
            b"VCP",
            &[road.version, speed, needed.stopping, needed.decision],
        );
        let mut marks = [0; terms::SHORT_STATIONS];
        let _ = road_marks::mark_short_road(road, &mut marks);
        let stations = road.length as usize + 1;
        self.zones_text(&marks[..stations]);
    }

    // Writes the listing of a road file.
    #[tactic(auto, using(crate::proofs::Aside::accepted_read), unfolding(crate::specs::Listing::listing))]
    fn file(&mut self, file: &[u8])
        ensures { self.new ≡ put self.old (listing file.now) }
    {
        let read = file::read(file, terms::GREATEST_SHORT_ROAD);
        match read.verdict {
            Ok(()) => self.road(read.road),
            Err(refusal) => self.line(b"refused", &[u32::from(refusal.number())]),
        }
    }
}

// The listing of a road file, into `text` from byte 0 on. The answer is how many bytes are written. It is written aside first,
// since its length decides whether it is refused.
#[tactic(auto, using(crate::proofs::Aside::aside, crate::proofs::Longest::listing_at_most, crate::proofs::Aside::listed_buffer), unfolding(crate::specs::Listing::list_answer, crate::specs::Listing::list_buffer))]
pub fn list_road_file(file: &[u8], text: &mut [u8]) -> Answer
    ensures answer { result ≡ list_answer file.now text.old }
    ensures list { text.new ≡ list_buffer file.now text.old }
{
    let mut listing = Text::new();
    listing.file(file);
    let bytes = listing.as_slice();
    let length = bytes.len();
    if text.len() < length {
        return Err(Refusal::NoRoom);
    }
    text[..length].copy_from_slice(bytes);
    Ok(length as u32)
}
