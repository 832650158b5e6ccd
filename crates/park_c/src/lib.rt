// The calls for C and Rust. Each returns a refusal's number, or 0, and writes its place, or 0.
#![tactic(auto)]

ghost use Rattle.std.specs.Prelude.{◌≡◌};
ghost use Rattle.park_format.specs.Rules.{refusal, rule_number};
ghost use Rattle.park_bill.specs.Balance.{InBalance, SiteInBalance};
ghost use Rattle.park_bill.specs.Reply.{list_after, park_outcome, site_outcome};
ghost use Rattle.park_encode.specs.Encode.{buffer_after, encode_outcome};
ghost use Rattle.park_c.specs.Outcome.{checked, number_of, numbers_after, place_of, returned, value_of};

use park_bill::SurchargeBy;
use park_bill::bill::Bill;
use park_format::rule::Refusal;

// Writes the place of a refusal, and returns its number.
fn tell(refusal: Refusal, place: &mut u64) -> u64
    ensures number { result ≡ rule_number refusal.rule }
    ensures place { place.new ≡ refusal.place }
{
    *place = u64::from(refusal.place);
    u64::from(refusal.rule)
}

// Checks a file.
#[unsafe(no_mangle)]
pub extern "C" fn park_check(file: &[u8], place: &mut u64) -> u64
    ensures number { result ≡ number_of (checked (refusal file.now)) }
    ensures place { place.new ≡ place_of (checked (refusal file.now)) }
{
    match park_format::check(file) {
        Ok(()) => {
            *place = 0;
            0
        }
        Err(r) => tell(r, place),
    }
}

// Bills one site by the given way to the surcharge, and tells the reply. The way comes last, so that the other arguments stay where they are.
// Both ways share this one function: were the walks over the records called from two places, they would be inlined in neither.
fn tell_site(
    file: &[u8],
    bill: &mut [u64; Bill::NUMBERS],
    site: u64,
    place: &mut u64,
    by: SurchargeBy,
) -> u64
    ensures number { result ≡ number_of (site_outcome file.now site) }
    ensures bill { bill.new ≡ numbers_after (site_outcome file.now site) bill.old }
    ensures place { place.new ≡ place_of (site_outcome file.now site) }
{
    match park_bill::bill_site_by(by, file, site) {
        Ok(b) => {
            b.write(bill);
            *place = 0;
            0
        }
        Err(refusal) => tell(refusal, place),
    }
}

// Bills one site; a refusal leaves the bill as it was.
#[unsafe(no_mangle)]
pub extern "C" fn park_bill_site(
    file: &[u8],
    bill: &mut [u64; Bill::NUMBERS],
    site: u64,
    place: &mut u64,
) -> u64
    ensures number { result ≡ number_of (site_outcome file.now site) }
    ensures bill { bill.new ≡ numbers_after (site_outcome file.now site) bill.old }
    ensures place { place.new ≡ place_of (site_outcome file.now site) }
    ensures balance { SiteInBalance file.now site (returned result bill.new) }
{
    tell_site(file, bill, site, place, SurchargeBy::Formula)
}

// The same, with the surcharge by the operators' table.
#[unsafe(no_mangle)]
pub extern "C" fn park_bill_site_by_table(
    file: &[u8],
    bill: &mut [u64; Bill::NUMBERS],
    site: u64,
    place: &mut u64,
) -> u64
    ensures number { result ≡ number_of (site_outcome file.now site) }
    ensures bill { bill.new ≡ numbers_after (site_outcome file.now site) bill.old }
    ensures place { place.new ≡ place_of (site_outcome file.now site) }
    ensures balance { SiteInBalance file.now site (returned result bill.new) }
{
    tell_site(file, bill, site, place, SurchargeBy::Table)
}

// Bills every site into a list by the given way to the surcharge, and tells the reply.
fn tell_park(
    file: &[u8],
    list: &mut [u64],
    place: &mut u64,
    sites: &mut u64,
    by: SurchargeBy,
) -> u64
    ensures number { result ≡ number_of (park_outcome file.now list.old) }
    ensures list { list.new ≡ list_after file.now list.old }
    ensures place { place.new ≡ place_of (park_outcome file.now list.old) }
    ensures sites { sites.new ≡ value_of (park_outcome file.now list.old) }
{
    match park_bill::bill_park_by(by, file, list) {
        Ok(count) => {
            *place = 0;
            *sites = count;
            0
        }
        Err(refused) => {
            let number = tell(refused, place);
            *sites = 0;
            number
        }
    }
}

// Bills every site into a list, and writes the number of sites; a refusal leaves the list as it was and writes 0 sites.
#[unsafe(no_mangle)]
pub extern "C" fn park_bill_park(
    file: &[u8],
    list: &mut [u64],
    place: &mut u64,
    sites: &mut u64,
) -> u64
    ensures number { result ≡ number_of (park_outcome file.now list.old) }
    ensures list { list.new ≡ list_after file.now list.old }
    ensures place { place.new ≡ place_of (park_outcome file.now list.old) }
    ensures sites { sites.new ≡ value_of (park_outcome file.now list.old) }
    ensures balance { InBalance file.now list.old list.new }
{
    tell_park(file, list, place, sites, SurchargeBy::Formula)
}

// The same, with the surcharge by the operators' table.
#[unsafe(no_mangle)]
pub extern "C" fn park_bill_park_by_table(
    file: &[u8],
    list: &mut [u64],
    place: &mut u64,
    sites: &mut u64,
) -> u64
    ensures number { result ≡ number_of (park_outcome file.now list.old) }
    ensures list { list.new ≡ list_after file.now list.old }
    ensures place { place.new ≡ place_of (park_outcome file.now list.old) }
    ensures sites { sites.new ≡ value_of (park_outcome file.now list.old) }
    ensures balance { InBalance file.now list.old list.new }
{
    tell_park(file, list, place, sites, SurchargeBy::Table)
}

// Makes a park file of a list of numbers at the start of a buffer, and writes its length; a refusal leaves the buffer as it was and writes
// the length 0.
#[unsafe(no_mangle)]
pub extern "C" fn park_encode(
    numbers: &[u32],
    file: &mut [u8],
    place: &mut u64,
    size: &mut u64,
) -> u64
    ensures number { result ≡ number_of (encode_outcome numbers.now file.old) }
    ensures file { file.new ≡ buffer_after numbers.now file.old }
    ensures place { place.new ≡ place_of (encode_outcome numbers.now file.old) }
    ensures size { size.new ≡ value_of (encode_outcome numbers.now file.old) }
{
    match park_encode::encode(numbers, file) {
        Ok(length) => {
            *place = 0;
            *size = length as u64;
            0
        }
        Err(broken) => {
            let number = tell(broken, place);
            *size = 0;
            number
        }
    }
}
