// docs/RULES.md, "Road file": its layout in either version, and reading it. All numbers little-endian, signed ones two's complement.
#![tactic(auto)]

ghost use Rattle.std.specs.Prelude.{◌≡◌, ◌+◌, ◌^◌, ◌<◌, ◌≤◌, length, replicate, Err, MatchResult};
ghost use Rattle.whole.specs.Fill.{filled};
ghost use Rattle.terms.specs.Answers.{accepted};
ghost use Rattle.terms.specs.Limits.{greatest_curve_count};
ghost use Rattle.road.specs.Road.{no_curve};
ghost use Rattle.file.specs.File.{number_at, station_bytes, file_length, version_in, curve_count, curve_at, road_in};
ghost use Rattle.file.specs.Reading.{header_verdict, read_verdict_up_to, read_up_to};

use road::{Curve, Road};
use terms::{Refusal, Verdict};

// What reading answers, and beside it the road, as document 01 has it of roads: all zero where the file is refused.
#[derive(Clone, Copy, Debug, PartialEq, Eq)]
pub struct ReadRoad {
    pub verdict: Verdict,
    pub road: Road,
}

// ---- places in a file
const VERSION_AT: usize = 3;

const SPEED_AT: usize = 5;

const PURPOSE_AT: usize = 6;

const LENGTH_AT: usize = 7;

// The bytes of a station, which are those of N and of each PVI.
const SHORT_STATION_BYTES: usize = 2;

const LONG_STATION_BYTES: usize = 4;

// Where these would stand if N had no bytes: those of N come on top.
const START_HEIGHT_AT: usize = 7;

const FIRST_GRADE_AT: usize = 11;

const COUNT_AT: usize = 13;

// The bytes of the header besides N, and those of a record besides its PVI.
const HEADER_BYTES: usize = 14;

const CURVE_BYTES: usize = 4;

// One byte more than the longest road file has. It is enough to read: a longer file is refused as its first so many bytes are.
pub const ENOUGH_BYTES: usize = LONG_STATION_BYTES
    + HEADER_BYTES
    + (LONG_STATION_BYTES + CURVE_BYTES) * road::CURVE_PLACES
    + 1;

// The bytes of a station in a file of this version.
#[tactic(auto, unfolding(crate::specs::File::station_bytes))]
pub fn station_bytes(version: u32) -> usize
    ensures { result ≡ station_bytes version }
{
    if version == terms::SECOND_VERSION {
        LONG_STATION_BYTES
    } else {
        SHORT_STATION_BYTES
    }
}

// The length of a file of this version with this many curves, and so where record `count` begins.
#[tactic(auto, using(crate::proofs::Stations::station_size, crate::proofs::Stations::record_bytes))]
pub fn file_length(version: u32, count: u8) -> usize
    ensures { result ≡ file_length version count }
{
    let station = station_bytes(version);
    station + HEADER_BYTES + (station + CURVE_BYTES) * usize::from(count)
}

// ---- numbers in a file
// The number of `width` bytes from place `at` on, lowest first.
fn number_at(file: &[u8], at: usize, width: usize) -> u32
    requires { (width ≤ 4) × (at + width ≤ length file.now) }
    ensures { (result ≡ number_at file.now at width) × (result < 256 ^ width) }
{
    let mut bytes = [0; 4];
    bytes[..width].copy_from_slice(&file[at..at + width]);
    u32::from_le_bytes(bytes)
}

// ---- the road in a file
// An unused curve place.
pub const NO_CURVE: Curve = Curve {
    pvi: 0,
    length: 0,
    grade_out: 0,
};

// What stands beside a refusal in the place of a road.
pub const NO_ROAD: Road = Road {
    version: 0,
    speed: 0,
    purpose: 0,
    length: 0,
    start_height: 0,
    first_grade: 0,
    count: 0,
    curves: [NO_CURVE; road::CURVE_PLACES],
};

// A file whose header and length are accepted, with its version and its number of curves.
#[derive(Clone, Copy)]
struct Checked<'a> {
    file: &'a [u8],
    version: u32,
    count: u8,
    ghost version_is: { version ≡ version_in file.now },
    ghost count_is: { count ≡ curve_count file.now },
    ghost few: { count ≤ greatest_curve_count },
    ghost total: { length file.now ≡ file_length version count },
}

impl<'a> Checked<'a> {
    // Refused by 1 to 5, by its header and its length.
    #[tactic(auto, using(crate::proofs::Stations::station_size, crate::proofs::Stations::first_station), unfolding(crate::specs::Reading::header_verdict))]
    fn of(file: &'a [u8]) -> Result<Checked<'a>, Refusal>
        ensures { MatchResult result (λ c. (c.file.now ≡ file.now) × (header_verdict file.now ≡ accepted)) (λ refusal. header_verdict file.now ≡ Err refusal) }
    {
        if file.len() < file_length(terms::FIRST_VERSION, 0) {
            return Err(Refusal::ShortFile);
        }
        if !file.starts_with(b"VCP") {
            return Err(Refusal::WrongLetters);
        }
        let version = number_at(file, VERSION_AT, 2);
        if terms::outside(terms::FIRST_VERSION, terms::SECOND_VERSION, version) {
            return Err(Refusal::WrongVersion);
        }
        if file.len() < file_length(version, 0) {
            return Err(Refusal::ShortFile);
        }
        let count = file[station_bytes(version) + COUNT_AT];
        if terms::GREATEST_CURVE_COUNT < count {
            return Err(Refusal::TooManyCurves);
        }
        if file.len() != file_length(version, count) {
            return Err(Refusal::WrongTotal);
        }
        Ok(Checked {
            file,
            version,
            count,
        })
    }

    // Record k: PVI, length, grade out.
    #[tactic(auto, using(crate::proofs::Stations::station_size, crate::proofs::Stations::records_within), unfolding(crate::specs::File::curve_at))]
    fn curve(self, k: u8) -> Curve
        requires { k < self.count }
        ensures { result ≡ curve_at self.entry.version self.entry.file.now k }
    {
        let station = station_bytes(self.version);
        let at = file_length(self.version, k);
        Curve {
            pvi: number_at(self.file, at, station),
            length: number_at(self.file, at + station, 2) as u16,
            grade_out: (number_at(self.file, at + station + 2, 2) as u16).cast_signed(),
        }
    }

    // Its records, and zero in the other curve places. `k` is the number of the record and of the place.
    #[tactic(auto, using(whole::proofs::Fill::filled_next), unfolding(whole::specs::Fill::filled))]
    fn curves(self) -> [Curve; road::CURVE_PLACES]
        ensures { result ≡ filled (curve_at self.entry.version self.entry.file.now) 0 self.entry.count (replicate greatest_curve_count no_curve) }
    {
        let mut curves = [NO_CURVE; road::CURVE_PLACES];
        for k in 0..self.count {
            curves[usize::from(k)] = self.curve(k);
        }
        curves
    }

    // The road in it.
    #[tactic(auto, using(crate::proofs::Stations::station_size), unfolding(crate::specs::File::road_in))]
    fn road(self) -> Road
        ensures { result ≡ road_in self.entry.file.now }
    {
        let file = self.file;
        let station = station_bytes(self.version);
        Road {
            version: self.version,
            speed: file[SPEED_AT],
            purpose: file[PURPOSE_AT],
            length: number_at(file, LENGTH_AT, station),
            start_height: number_at(file, station + START_HEIGHT_AT, 4).cast_signed(),
            first_grade: (number_at(file, station + FIRST_GRADE_AT, 2) as u16).cast_signed(),
            count: self.count,
            curves: self.curves(),
        }
    }
}

// The road in a file, where none over `most` metres is taken. Refused by 1 to 5 as its header is, then as its road is.
#[tactic(auto, unfolding(crate::specs::Reading::read_verdict_up_to))]
fn accepted_road(file: &[u8], most: u32) -> Result<Road, Refusal>
    ensures { MatchResult result (λ r. (r ≡ road_in file.now) × (read_verdict_up_to most file.now ≡ accepted)) (λ refusal. read_verdict_up_to most file.now ≡ Err refusal) }
{
    let road = Checked::of(file)?.road();
    road.verdict(most)?;
    Ok(road)
}

// Reads a road file, where no road over `most` metres is taken.
#[tactic(auto, unfolding(crate::specs::Reading::read_up_to, crate::specs::File::no_road))]
pub fn read(file: &[u8], most: u32) -> ReadRoad
    ensures { result ≡ read_up_to most file.now }
{
    match accepted_road(file, most) {
        Ok(road) => ReadRoad {
            verdict: Ok(()),
            road,
        },
        Err(refusal) => ReadRoad {
            verdict: Err(refusal),
            road: NO_ROAD,
        },
    }
}
