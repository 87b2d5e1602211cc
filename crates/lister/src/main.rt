// The road lister, docs/RULES.md, "The lister": reads a road file on standard input and prints its listing.
#![tactic(auto)]

ghost use Rattle.std.specs.Prelude.{◌≡◌, length, take};
ghost use Rattle.std.specs.Counts.{IsPrefixLen};
ghost use Rattle.std.specs.Io.{ReadsAtMost};
ghost use Rattle.listing.specs.Listing.{listing, EnoughToList, HoldsListings};

use std::io::{self, Read};

// Reads until the bytes are full or the input ends, and answers how many were read. What does not fit is not needed. Of std,
// `read_exact` refuses a short input and `read_to_end` wants a `Vec`.
fn read_file<R: Read>(input: &mut R, bytes: &mut [u8]) -> io::Result<usize>
    requires { EnoughToList (length bytes.old) }
    ensures { ReadsAtMost result bytes.new }
{
    let mut read = 0;
    while read < bytes.len() {
        let more = input.read(&mut bytes[read..])?;
        if more == 0 {
            break;
        }
        read += more;
    }
    Ok(read)
}

// Puts the listing of a file at the front of a text that holds any, and answers how many bytes it has.
#[tactic(auto, using(listing::proofs::Whole::whole_listing))]
fn list(file: &[u8], text: &mut [u8]) -> usize
    requires { HoldsListings (length text.old) }
    ensures count { IsPrefixLen result text.new }
    ensures front { take result text.new ≡ listing file.now }
{
    listing::list_road_file(file, text).unwrap_or(0) as usize
}

#[tactic(auto, using(listing::proofs::Front::listing_front, listing::proofs::Longest::listing_at_most), unfolding(file::specs::File::station_bytes))]
fn main(rt: HostRuntime) -> io::Result<()> {
    let mut bytes = [0u8; file::ENOUGH_BYTES];
    let read = read_file(&mut rt.stdin(), &mut bytes)?;
    let mut text = [0u8; listing::GREATEST_LISTING];
    let length = list(&bytes[..read], &mut text);
    rt.stdout().write_all(&text[..length])
}
