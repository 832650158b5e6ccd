// What parkbill prints, written into a lent buffer, since nothing is allocated. refusal and bill answer the size of the text.
#![tactic(auto)]

mod writer;

ghost use Rattle.std.specs.Prelude.{◌+◌, ◌*◌, ◌≤◌, ◌<◌};
ghost use Rattle.park_format.specs.Limits.{most_sites};
ghost use Rattle.park_text.specs.Buffer.{Starts};
ghost use Rattle.park_text.specs.Inner.Writer.{Writes};
ghost use Rattle.park_text.specs.Text.{bill_text, refusal_text, site_text, sites_text};

use park_bill::bill::Bill;
use park_format::header::Header;
use writer::Writer;

// Room for every answer: the line of names has 68 bytes, and each of 16 lines at most 234.
pub const ROOM: usize = 4096;

// As many sites as a park can have, and the numbers of their bills.
const SITES: usize = Header::MOST_SITES as usize;

pub const NUMBERS: usize = SITES * Bill::NUMBERS;

// The line of a site, at most 234 bytes.
#[tactic(auto, using(crate::proofs::Digits::length_pair))]
fn site(k: u64, numbers: &[u64; Bill::NUMBERS], out: &mut Writer)
    requires short { k < 100 }
    requires room { out.old.size + 234 ≤ ROOM }
    ensures text { Writes (site_text k numbers.now) out.old out.new }
    ensures size { out.new.size ≤ out.old.size + 234 }
{
    out.number(k);
    out.fields(numbers);
    out.bytes(b"\n");
}

// The lines of sites 1 to count, each from its eleven numbers of the list.
#[tactic(auto, unfolding(crate::specs::Text::sites_text))]
fn sites(count: usize, list: &[u64; NUMBERS], out: &mut Writer)
    requires few { count ≤ most_sites }
    requires room { out.old.size + 234 * count ≤ ROOM }
    ensures text { Writes (sites_text count list.now) out.old out.new }
    ensures size { out.new.size ≤ out.old.size + 234 * count }
{
    let (bills, _) = list.as_chunks::<{ Bill::NUMBERS }>();
    for (k, numbers) in bills[..count].iter().enumerate() {
        site(k as u64 + 1, numbers, out);
    }
}

// Writes the text of a refusal by a number, at a place.
pub fn refusal(number: u64, place: u64, out: &mut [u8; ROOM]) -> usize
    ensures { Starts (refusal_text number place) out.old result out.new }
{
    let mut line = Writer::new(out);
    line.bytes(b"refused");
    line.fields(&[number, place]);
    line.bytes(b"\n");
    line.size
}

// Writes the text of a bill of that many sites, or of as many as the list has room for. The count stands beside a list of fixed size, since nothing
// is allocated.
pub fn bill(count: u64, list: &[u64; NUMBERS], out: &mut [u8; ROOM]) -> usize
    ensures { Starts (bill_text count list.now) out.old result out.new }
{
    let mut lines = Writer::new(out);
    lines.bytes(b"site,consumption,tg,settled,cut,generation,pc,pg,p2,p3,total,reason\n");
    sites(count.min(SITES as u64) as usize, list, &mut lines);
    lines.size
}
