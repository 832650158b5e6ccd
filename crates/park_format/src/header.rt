// The header of a park file, and the rules of header and length.
ghost use Rattle.std.specs.Prelude.{◌≡◌, cond, ◌≤◌, eqb, length};
ghost use Rattle.park_format.specs.Format.{generator_start, header_size, line_start, number_at, shortest_header, site_start, version_of};
ghost use Rattle.park_format.specs.Inner.Stored.{Stored};
ghost use Rattle.park_format.specs.Limits.{most_generators, most_lines, most_sites};
ghost use Rattle.park_format.specs.Made.{header_bytes};
ghost use Rattle.park_format.specs.Park.{header_of};
ghost use Rattle.park_format.specs.Inner.Hours.{hours_of};
ghost use Rattle.park_format.specs.Rules.{broken_at, first_broken, header_rules, size_of};

use crate::generator::Generator;
use crate::line::Line;
use crate::rule::Rule;
use crate::site::Site;
use crate::{number, rule};

#[derive(Clone, Copy, Debug, PartialEq, Eq)]
pub struct Header {
    // The three letters of the file's mark, as a number.
    pub mark: u32,
    // A number, since a header is read before rule 3 is asked: an enum would need a case for every wrong one.
    pub version: u32,
    pub month: u32,
    // How many sites (s) and lines (n) the file has.
    pub sites: u32,
    pub lines: u32,
    // T, in kopecks per MWh.
    pub price: u32,
    // t, for the computed generation.
    pub hours: u32,
    // How many generators the file has; none in version 1.
    pub generators: u32,
}

// Most hours a month may state, January to December.
pub const MONTH_HOURS: [u16; 12] = [744, 696, 743, 720, 744, 720, 744, 744, 720, 745, 720, 744];

// The most hours that a month may state, if it is a month.
#[tactic(auto, unfolding(crate::specs::Rules::most_hours))]
fn most_hours(month: u32) -> Option<u32>
    ensures { result ≡ hours_of month }
{
    if rule::zero_or_above(Header::MONTHS, month) {
        return None;
    }
    Some(u32::from(MONTH_HOURS[month as usize - 1]))
}

impl Header {
    // Bytes in version 1, and from version 2 on.
    pub const LEN: usize = 14;

    pub const LATER_LEN: usize = 15;

    // Where the fields after the first begin.
    const AT_VERSION: usize = 3;

    const AT_MONTH: usize = 5;

    const AT_SITES: usize = 6;

    const AT_LINES: usize = 7;

    const AT_PRICE: usize = 8;

    const AT_HOURS: usize = 12;

    const AT_GENERATORS: usize = 14;

    // The letters PRK.
    pub const MARK: u32 = 0x4b5250;

    pub const FIRST_VERSION: u32 = 1;

    pub const SECOND_VERSION: u32 = 2;

    pub const LATEST_VERSION: u32 = Header::SECOND_VERSION;

    // Limits of rules 4 to 7 and 25.
    pub const MONTHS: u32 = 12;

    pub const MOST_SITES: u32 = 16;

    pub const MOST_LINES: u32 = 64;

    pub const MOST_PRICE: u32 = 2_000_000;

    pub const MOST_GENERATORS: u32 = 32;

    // Sizes by the version that a file states; a loop over records has it as a const parameter.
    // The bytes of a header.
    #[tactic(auto, unfolding(crate::specs::Format::header_size))]
    pub fn len(version: u32) -> usize
        ensures size { result ≡ header_size version }
        ensures most { result ≤ 15 }
    {
        if version == Header::FIRST_VERSION {
            return Header::LEN;
        }
        Header::LATER_LEN
    }

    // The version that a file states, which is long enough for a header of version 1.
    pub fn version_of(file: &[u8]) -> u32
        requires { shortest_header ≤ length file.now }
        ensures { result ≡ version_of file.now }
    {
        number::read::<2>(file, Header::AT_VERSION)
    }

    // By the version that a file states, as len. How many generators a file states: 0 in version 1, and where the file ends before it says.
    #[tactic(auto, unfolding(crate::specs::Format::number_at))]
    fn generators_of(file: &[u8], version: u32) -> u32
        ensures { result ≡ cond (eqb version 1) 0 (number_at 1 file.now 14) }
    {
        if version == Header::FIRST_VERSION {
            return 0;
        }
        if file.len() < Header::LATER_LEN {
            return 0;
        }
        number::read::<1>(file, Header::AT_GENERATORS)
    }

    // The header of a file that is long enough for one of version 1.
    #[tactic(auto, using(crate::proofs::Fields::header_of_lem))]
    pub fn read(file: &[u8]) -> Header
        requires { shortest_header ≤ length file.now }
        ensures { result ≡ header_of file.now }
    {
        let version = Header::version_of(file);
        Header {
            mark: number::read::<3>(file, 0),
            version,
            month: number::read::<1>(file, Header::AT_MONTH),
            sites: number::read::<1>(file, Header::AT_SITES),
            lines: number::read::<1>(file, Header::AT_LINES),
            price: number::read::<4>(file, Header::AT_PRICE),
            hours: number::read::<2>(file, Header::AT_HOURS),
            generators: Header::generators_of(file, version),
        }
    }

    // Writes a header of version 1 at the start of a file that has room for one: of a number that is too large for its field, the lowest
    // bytes.
    pub fn write(self, file: &mut [u8])
        requires { (self.version ≡ 1) × (shortest_header ≤ length file.old) }
        ensures { Stored (header_bytes self) 0 file.old file.new }
    {
        number::write::<3>(file, 0, self.mark);
        number::write::<2>(file, Header::AT_VERSION, self.version);
        number::write::<1>(file, Header::AT_MONTH, self.month);
        number::write::<1>(file, Header::AT_SITES, self.sites);
        number::write::<1>(file, Header::AT_LINES, self.lines);
        number::write::<4>(file, Header::AT_PRICE, self.price);
        number::write::<2>(file, Header::AT_HOURS, self.hours);
    }

    // Where site i begins, counted from 0, in a file with this header.
    pub fn site_start(self, i: u32) -> usize
        requires { i ≤ most_sites }
        ensures start { result ≡ site_start self.version i }
        ensures most { result ≤ 200 }
    {
        Header::len(self.version) + Site::LEN * i as usize
    }

    // Where line i begins.
    pub fn line_start(self, i: u32) -> usize
        requires { (self.sites ≤ most_sites) × (i ≤ most_lines) }
        ensures start { result ≡ line_start self.version self.sites i }
        ensures most { result ≤ 1800 }
    {
        self.site_start(self.sites) + Line::bytes(self.version, i as usize)
    }

    // Where generator i begins.
    pub fn generator_start(self, i: u32) -> usize
        requires sites { self.sites ≤ most_sites }
        requires lines { self.lines ≤ most_lines }
        requires there { i ≤ most_generators }
        ensures { result ≡ generator_start self.version self.sites self.lines i }
    {
        self.line_start(self.lines) + Generator::LEN * i as usize
    }

    // The length of a file with as many sites, lines and generators.
    pub fn size(self) -> usize
        ensures { result ≡ size_of self }
    {
        Header::len(self.version)
            + Site::LEN * (self.sites as usize)
            + Line::bytes(self.version, self.lines as usize)
            + Generator::LEN * (self.generators as usize)
    }

    // The first broken rule of header and length, 2 to 8, 25 and 9, if one is broken.
    #[tactic(auto, unfolding(crate::specs::Rules::header_rules, crate::specs::Rules::first_broken, crate::specs::Rules::most_hours))]
    pub fn check(self, wrong_length: bool) -> Result<(), Rule>
        ensures { broken_at result 0 ≡ first_broken (header_rules wrong_length self) }
    {
        // Looked up before the first test, so that the compiler does not take it for a rare case.
        let most_hours = most_hours(self.month);
        if self.mark != Header::MARK {
            return Err(Rule::Mark);
        }
        if rule::zero_or_above(Header::LATEST_VERSION, self.version) {
            return Err(Rule::Version);
        }
        let Some(most_hours) = most_hours else {
            return Err(Rule::Month);
        };
        if rule::zero_or_above(Header::MOST_SITES, self.sites) {
            return Err(Rule::Sites);
        }
        if rule::zero_or_above(Header::MOST_LINES, self.lines) {
            return Err(Rule::Lines);
        }
        if rule::zero_or_above(Header::MOST_PRICE, self.price) {
            return Err(Rule::Price);
        }
        if most_hours < self.hours {
            return Err(Rule::Hours);
        }
        if Header::MOST_GENERATORS < self.generators {
            return Err(Rule::Generators);
        }
        if wrong_length {
            return Err(Rule::Length);
        }
        Ok(())
    }
}
