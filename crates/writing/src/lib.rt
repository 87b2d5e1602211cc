// docs/RULES.md, "Road file": writing it. All numbers little-endian, signed ones two's complement.
#![tactic(auto)]

ghost use Rattle.std.specs.Prelude.{◌≡◌, ◌+◌, ◌≤◌, length};
ghost use Rattle.terms.specs.Limits.{greatest_curve_count};
ghost use Rattle.file.specs.File.{record_length, file_length};
ghost use Rattle.writing.specs.Bytes.{bytes_of, front_bytes, header_bytes, curve_bytes, file_bytes};
ghost use Rattle.writing.specs.Put.{Put};
ghost use Rattle.writing.specs.Writing.{write_answer, write_list};

use road::{Curve, Road};
use terms::{Answer, Refusal};

// The letters VCP, as the number of their three bytes.
const LETTERS: u32 = 0x504356;

// A buffer, and the place behind what is stored in it.
#[derive(Drop)]
struct Writer<'a> {
    buffer: &'a mut [u8],
    at: usize,
}

impl Writer<'_> {
    // Stores the `width` bytes of a number, lowest first.
    fn put(&mut self, number: u32, width: usize)
        requires { (width ≤ 4) × (self.old.at + width ≤ length self.old.buffer.now) }
        ensures { Put (bytes_of width number) self.old self.new }
    {
        let next = self.at + width;
        self.buffer[self.at..next].copy_from_slice(&number.to_le_bytes()[..width]);
        self.at = next;
    }

    // Stores the first numbers of a road.
    #[tactic(auto, using(file::proofs::Stations::station_size))]
    fn put_front(&mut self, road: Road)
        requires { self.old.at + file_length road.version 0 ≤ length self.old.buffer.now }
        ensures { Put (front_bytes road) self.old self.new }
    {
        self.put(LETTERS, 3);
        self.put(road.version, 2);
        self.put(u32::from(road.speed), 1);
        self.put(u32::from(road.purpose), 1);
        let station = file::station_bytes(road.version);
        self.put(road.length, station);
    }

    // Stores the header of a road.
    #[tactic(auto, using(crate::proofs::Bytes::front_length))]
    fn put_header(&mut self, road: Road)
        requires { self.old.at + file_length road.version 0 ≤ length self.old.buffer.now }
        ensures { Put (header_bytes road) self.old self.new }
    {
        self.put_front(road);
        self.put(road.start_height.cast_unsigned(), 4);
        self.put(u32::from(road.first_grade.cast_unsigned()), 2);
        self.put(u32::from(road.count), 1);
    }

    // Stores the record of a curve in a file of this version.
    #[tactic(auto, using(crate::proofs::Bytes::bytes_length, file::proofs::Stations::station_size))]
    fn put_curve(&mut self, curve: Curve, version: u32)
        requires { self.old.at + record_length version ≤ length self.old.buffer.now }
        ensures { Put (curve_bytes version curve) self.old self.new }
    {
        let station = file::station_bytes(version);
        self.put(curve.pvi, station);
        self.put(u32::from(curve.length), 2);
        self.put(u32::from(curve.grade_out.cast_unsigned()), 2);
    }

    // Stores the file of a road.
    #[tactic(auto, using(crate::proofs::Stored::record_fits))]
    fn put_file(&mut self, road: Road)
        requires { (road.count ≤ greatest_curve_count) × (self.old.at + file_length road.version road.count ≤ length self.old.buffer.now) }
        ensures { Put (file_bytes road) self.old self.new }
    {
        self.put_header(road);
        for &curve in road.curves_in_use() {
            self.put_curve(curve, road.version);
        }
    }
}

// Writes a road's file at the front of a buffer, and answers how many bytes that is. Refused as the road is, then by 14; the
// buffer is then as it was.
#[tactic(auto, using(crate::proofs::Stored::accepted_count, crate::proofs::Stored::accepted_length), unfolding(crate::specs::Writing::write_answer, crate::specs::Writing::write_list))]
pub fn write(road: Road, buffer: &mut [u8]) -> Answer
    ensures answer { result ≡ write_answer road buffer.old }
    ensures list { buffer.new ≡ write_list road buffer.old }
{
    road.verdict(terms::GREATEST_LONG_ROAD)?;
    let total = file::file_length(road.version, road.count);
    if buffer.len() < total {
        return Err(Refusal::NoRoom);
    }
    let mut writer = Writer { buffer, at: 0 };
    writer.put_file(road);
    Ok(total as u32)
}
