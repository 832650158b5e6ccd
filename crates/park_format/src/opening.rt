// The check of a park file, and its records if it keeps the rules.
ghost use Rattle.std.specs.Prelude.{◌≡◌, ◌≤◌, IfOk, length};
ghost use Rattle.park_format.specs.Format.{shortest_header, version_of};
ghost use Rattle.park_format.specs.Limits.{latest_version};
ghost use Rattle.park_format.specs.Opened.{opened_park};
ghost use Rattle.park_format.specs.Park.{park_of};
ghost use Rattle.park_format.specs.Rules.{IsAccepted, refusal, refusal_of};

use crate::file::ParkFile;
use crate::header::Header;
use crate::laid::Laid;
use crate::rule::{Refusal, Rule};
use crate::{records, rule};

// A file that keeps the rules, by its version. Who goes over its records is compiled for each, so a match on it has like arms.
#[derive(Clone, Copy)]
pub enum Opened<'a> {
    First(ParkFile<'a, { Header::FIRST_VERSION }>),
    Second(ParkFile<'a, { Header::SECOND_VERSION }>),
}

// What check answers of a file with room for a header, which states this version or one that does not exist. It is called where the version is
// known, so that the compiler leaves out what other versions ask of header and length.
fn check_as<const VERSION: u32>(file: &[u8]) -> Result<(), Refusal>
    requires long { shortest_header ≤ length file.now }
    requires version { 1 ≤ version_of file.now → version_of file.now ≤ latest_version → version_of file.now ≡ VERSION }
    ensures { refusal_of result ≡ refusal file.now }
{
    let header = Header::read(file);
    rule::at_place(header.check(file.len() != header.size()), 0)?;
    let laid: Laid<'_, VERSION> = Laid {
        bytes: file,
        header,
    };
    records::check(&laid)
}

// Whether a file keeps the rules, or the first that it breaks and where. It takes bytes of any number.
pub fn check(file: &[u8]) -> Result<(), Refusal>
    ensures { refusal_of result ≡ refusal file.now }
{
    if file.len() < Header::LEN {
        return Err(Rule::TooShort.at(0));
    }
    if Header::version_of(file) == Header::FIRST_VERSION {
        return check_as::<{ Header::FIRST_VERSION }>(file);
    }
    check_as::<{ Header::SECOND_VERSION }>(file)
}

// The records of an accepted file of this version. The header is read anew, so that what the check answers fits registers.
fn accepted_as<'a, const VERSION: u32>(file: &'a [u8]) -> ParkFile<'a, VERSION>
    requires accepted { IsAccepted file.now }
    requires version { 1 ≤ version_of file.now → version_of file.now ≤ latest_version → version_of file.now ≡ VERSION }
    ensures { result.laid.bytes.now ≡ file.now }
{
    let laid = Laid {
        bytes: file,
        header: Header::read(file),
    };
    ParkFile { laid }
}

// The records of a file that keeps the rules, or the first that it breaks and where. It takes bytes of any number.
pub fn open(file: &[u8]) -> Result<Opened<'_>, Refusal>
    ensures refused { refusal_of result ≡ refusal file.now }
    ensures park { IfOk result (λ opened. opened_park opened ≡ park_of file.now) }
{
    check(file)?;
    if Header::version_of(file) == Header::FIRST_VERSION {
        return Ok(Opened::First(accepted_as(file)));
    }
    Ok(Opened::Second(accepted_as(file)))
}
