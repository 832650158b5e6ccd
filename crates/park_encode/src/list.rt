// A customer's list of numbers that has as many as its header asks for: its records by their index, and its check.
ghost use Rattle.std.specs.Prelude.{◌≡◌, ◌≤◌, length};
ghost use Rattle.park_format.specs.Inner.Recorded.{record_rules, Recorded};
ghost use Rattle.park_format.specs.Rules.{first_broken, refusal_of};
ghost use Rattle.park_encode.specs.Encode.{IsAcceptedList, list_refusal};
ghost use Rattle.park_encode.specs.Inner.Counted.{Counted};
ghost use Rattle.park_encode.specs.Numbers.{header_fields, line_first, list_header, list_park, site_first};

use park_format::generator::Generator;
use park_format::header::Header;
use park_format::line::Line;
use park_format::records::Records;
use park_format::rule::{Refusal, Rule};
use park_format::site::Site;
use park_format::{records, rule};

// How many numbers the header, a site and a line have.
const HEADER: usize = 5;

const SITE: usize = 5;

const LINE: usize = 8;

// The version that is written, also when later ones exist.
const VERSION: u32 = 1;

// Places in the list, in numbers; those of a file, in bytes and by version, are Header's.
// Where the numbers of site i begin, counted from 0.
fn site_start(i: u32) -> usize
    ensures { result ≡ site_first i }
{
    HEADER + SITE * i as usize
}

// Where the numbers of line i begin in a list of as many sites, counted from 0; where the list ends, if i is the number of its lines.
fn line_start(sites: u32, i: u32) -> usize
    ensures { result ≡ line_first sites i }
{
    site_start(sites) + LINE * i as usize
}

#[derive(Clone, Copy)]
pub struct List<'a> {
    pub numbers: &'a [u32],
    pub header: Header,
    pub ghost its: { header ≡ list_header numbers.now },
    pub ghost counted: { Counted header (length numbers.now) },
    pub ghost recorded: { Recorded (list_park numbers.now) },
}

impl<'a> Records for List<'a> {
    ghost use Rattle.park_encode.specs.Numbers.{list_park};

    ghost park = { λ l. list_park l.numbers.now };

    #[tactic(auto, unfolding(crate::specs::Numbers::list_park))]
    fn header(&self) -> Header {
        self.header
    }

    fn site(&self, i: u32) -> Site {
        let at = site_start(i);
        let numbers = &self.numbers[at..at + SITE];
        Site {
            power: numbers[0],
            flag: numbers[1],
            compensation: numbers[2],
            motors: numbers[3],
            discount: numbers[4],
        }
    }

    fn line(&self, i: u32) -> Line {
        let at = line_start(self.header.sites, i);
        let numbers = &self.numbers[at..at + LINE];
        Line {
            from: numbers[0],
            to: numbers[1],
            meters: numbers[2],
            eerp: numbers[3],
            active: numbers[4],
            reactive: numbers[5],
            generated: numbers[6],
            night: numbers[7],
            produced: 0,
        }
    }

    // A list has none.
    #[tactic(auto, unfolding(crate::specs::Numbers::list_park, crate::specs::Numbers::list_header))]
    fn generator(&self, _i: u32) -> Generator {
        unreachable!()
    }

    ghost recorded = { λ l. l.recorded };
}

// The header of a list that is long enough for one.
fn header_of(numbers: &[u32]) -> Header
    requires { header_fields ≤ length numbers.now }
    ensures { result ≡ list_header numbers.now }
{
    Header {
        mark: Header::MARK,
        version: VERSION,
        month: numbers[0],
        sites: numbers[1],
        lines: numbers[2],
        price: numbers[3],
        hours: numbers[4],
        generators: 0,
    }
}

// The first broken rule of a list's records, if one is broken, and where: a site or a line of the list, counted from 1.
fn check_records(list: &List<'_>) -> Result<(), Refusal>
    ensures { refusal_of result ≡ first_broken (record_rules (list_park list.now.numbers.now)) }
{
    records::check(list)
}

// Whether a list keeps the rules, or the first that it breaks and where. It takes numbers of any count.
pub fn check(numbers: &[u32]) -> Result<(), Refusal>
    ensures { refusal_of result ≡ list_refusal numbers.now }
{
    if numbers.len() < HEADER {
        return Err(Rule::TooShort.at(0));
    }
    let header = header_of(numbers);
    rule::at_place(
        header.check(numbers.len() != line_start(header.sites, header.lines)),
        0,
    )?;
    let list = List { numbers, header };
    check_records(&list)
}

// The records of a list that keeps the rules. The header is read anew, so that what the check answers fits registers.
pub fn accepted(numbers: &[u32]) -> List<'_>
    requires { IsAcceptedList numbers.now }
    ensures { result.numbers.now ≡ numbers.now }
{
    List {
        numbers,
        header: header_of(numbers),
    }
}
