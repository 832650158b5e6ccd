// The billing calls, by a given way to the surcharge and by its formula.
ghost use Rattle.std.specs.Prelude.{◌≡◌, ◌++◌, ◌+◌, ◌*◌, ◌≤◌, ◌<◌, length, drop};
ghost use Rattle.park_format.specs.Call.{reply_of};
ghost use Rattle.park_format.specs.Rules.{zero_or_above};
ghost use Rattle.park_bill.specs.Bill.{bill, bill_numbers, touching};
ghost use Rattle.park_bill.specs.Inner.Site.{AreSites, IsSite};
ghost use Rattle.park_bill.specs.Inner.Outcome.{all_after, all_outcome, one_outcome};
ghost use Rattle.park_bill.specs.Balance.{InBalance, SiteInBalance};
ghost use Rattle.park_bill.specs.Reply.{bills_of, list_after, park_outcome, reply_numbers, site_outcome};

use crate::bill::Bill;
use crate::site::{self, Terms};
use park_charge::SurchargeBy;
use park_format::opening::Opened;
use park_format::records::Accepted;
use park_format::rule::{Refusal, Rule};
use park_sums::walk::SiteSums;
use park_sums::{own, row, walk};

// Whether a site that is asked for is not one of the park: zero_or_above for 64 bits, since a number narrowed first
// needs a second exit, and with 64 bits there each rule would widen its number first.
fn is_missing(site: u64, sites: u32) -> bool
    ensures { result ≡ zero_or_above sites site }
{
    !(1..=u64::from(sites)).contains(&site)
}

// The bill of site k of a park, counted from 0, from what both walks left for it. Inlined where the bill is replied or written, since one that is
// passed in memory makes bill_site of the smallest park a sixth slower.
#[inline(always)]
fn bill_at<P: Accepted>(by: SurchargeBy, park: &P, k: u32, sums: SiteSums) -> Bill
    requires { (k < (P.park park.now).header.sites) × (IsSite (touching (k + 1) (P.park park.now)) sums) }
    ensures { result ≡ bill (P.park park.now) (k + 1) }
{
    site::bill_of(by, Terms::of(park), park.site(k), sums)
}

// Bills one site of a park, if it is one, by walks for it alone.
fn bill_one<P: Accepted>(by: SurchargeBy, park: &P, site: u64) -> Result<Bill, Refusal>
    ensures { reply_of result ≡ one_outcome (P.park park.now) site }
{
    if is_missing(site, park.header().sites) {
        return Err(Rule::NoSuchSite.at(0));
    }
    let site = site as u32;
    let sums = walk::site_sums(park, site);
    let tangent = row::tangent(sums.row, own::more_at(park, site));
    let row = walk::site_after_transits(park, site, tangent, sums.row);
    Ok(bill_at(
        by,
        park,
        site - 1,
        SiteSums {
            row,
            tangent,
            ..sums
        },
    ))
}

// Writes the bill of each site of a park into its own part of a list, from what the walks left.
fn write_bills<P: Accepted>(
    by: SurchargeBy,
    park: &P,
    sums: &[SiteSums; walk::PLACES],
    list: &mut [u64],
)
    requires walked { AreSites (P.park park.now) sums.now }
    requires long { bill_numbers * (P.park park.now).header.sites ≤ length list.old }
    ensures { list.new ≡ bills_of (P.park park.now) (P.park park.now).header.sites ++ drop (bill_numbers * (P.park park.now).header.sites) list.old }
{
    // By index, since a proof knows no number that is written through chunks_exact_mut.
    for k in 0..park.header().sites {
        let site = k as usize + 1;
        let start = Bill::NUMBERS * k as usize;
        bill_at(by, park, k, sums[site]).write(&mut list[start..start + Bill::NUMBERS]);
    }
}

// Bills every site of a park into a list, if it is long enough. The sums are worked out in an array that is lent, whatever it holds: code of each version
// with an array of its own would take the stack of both.
fn bill_all<P: Accepted>(
    by: SurchargeBy,
    park: &P,
    sums: &mut [SiteSums; walk::PLACES],
    list: &mut [u64],
) -> Result<u64, Refusal>
    ensures reply { reply_of result ≡ all_outcome (P.park park.now) list.old }
    ensures written { list.new ≡ all_after (P.park park.now) list.old }
{
    let sites = park.header().sites;
    if list.len() < Bill::NUMBERS * sites as usize {
        return Err(Rule::ShortList.at(0));
    }
    walk::sums(park, sums);
    walk::tangents(park, sums);
    walk::after_transits(park, sums);
    write_bills(by, park, sums, list);
    Ok(u64::from(sites))
}

// Bills one site, counted from 1, by the given way to the surcharge. It takes any number for a site, and bytes of any number.
pub fn bill_site_by(by: SurchargeBy, file: &[u8], site: u64) -> Result<Bill, Refusal>
    ensures reply { reply_of result ≡ site_outcome file.now site }
    ensures balance { SiteInBalance file.now site (reply_numbers (reply_of result)) }
{
    match park_format::open(file)? {
        Opened::First(park) => bill_one(by, &park, site),
        Opened::Second(park) => bill_one(by, &park, site),
    }
}

// Bills every site into a list, eleven numbers a site, by the given way to the surcharge, and counts the sites; a refusal leaves the list as it was.
pub fn bill_park_by(by: SurchargeBy, file: &[u8], list: &mut [u64]) -> Result<u64, Refusal>
    ensures reply { reply_of result ≡ park_outcome file.now list.old }
    ensures written { list.new ≡ list_after file.now list.old }
    ensures balance { InBalance file.now list.old list.new }
{
    let mut sums = [SiteSums::NONE; walk::PLACES];
    match park_format::open(file)? {
        Opened::First(park) => bill_all(by, &park, &mut sums, list),
        Opened::Second(park) => bill_all(by, &park, &mut sums, list),
    }
}

// Bills one site by the surcharge's formula.
pub fn bill_site(file: &[u8], site: u64) -> Result<Bill, Refusal>
    ensures reply { reply_of result ≡ site_outcome file.now site }
    ensures balance { SiteInBalance file.now site (reply_numbers (reply_of result)) }
{
    bill_site_by(SurchargeBy::Formula, file, site)
}

// Bills every site into a list by the surcharge's formula.
pub fn bill_park(file: &[u8], list: &mut [u64]) -> Result<u64, Refusal>
    ensures reply { reply_of result ≡ park_outcome file.now list.old }
    ensures written { list.new ≡ list_after file.now list.old }
    ensures balance { InBalance file.now list.old list.new }
{
    bill_park_by(SurchargeBy::Formula, file, list)
}
