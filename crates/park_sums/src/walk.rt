// The walks over the lines of an accepted park: the first adds up what needs no tangent, the second takes off the transits without a meter.
ghost use Rattle.std.specs.Prelude.{◌<◌};
ghost use Rattle.park_format.specs.Park.{transits};
ghost use Rattle.park_sums.specs.Sums.{EachSite};
ghost use Rattle.park_sums.specs.Inner.Rows.{AddsLine, AreLess, AreNear, AreSums, AreTangents, InputAt, IsLess, IsNear, IsSiteSums, LessAt, LineAt, places, Room, RoomForTangent, sums_at, TransitAt, WithInput, WithTransit};

use crate::bounded::BoundedLine;
use crate::{own, row};
use park_format::header::Header;
use park_format::meter;
use park_format::records::Accepted;

// The network, 0, and as many sites as a park can have.
pub const PLACES: usize = Header::MOST_SITES as usize + 1;

// What the walks leave for one site.
#[derive(Clone, Copy, Debug, PartialEq, Eq)]
pub struct SiteSums {
    pub row: [i64; row::SIZE],
    // 0 until it is known: an Option would need a case in each step that takes it.
    pub tangent: u64,
    // The meters that an input of the site lacks, and a transit, as in a meter mark, since one | takes all four: zeros at the start, which are
    // made the fastest.
    pub input_lacks: u32,
    pub transit_lacks: u32,
}

impl SiteSums {
    // Of no lines, none of which lacks a meter.
    pub const NONE: SiteSums = SiteSums {
        row: [0; row::SIZE],
        tangent: 0,
        input_lacks: 0,
        transit_lacks: 0,
    };

    // Inputs and transits have a method each, here and below: they differ in the end of the line that is asked and in what it adds, and one that
    // is told which would be longer.
    // The sums with one input more.
    fn with_input(self, bounded: BoundedLine) -> SiteSums
        requires { Room self.row }
        ensures { WithInput bounded.line self result }
    {
        SiteSums {
            row: row::with_input(self.row, bounded),
            input_lacks: self.input_lacks | (meter::ALL ^ bounded.line.meters),
            ..self
        }
    }

    // The sums with one transit more.
    fn with_transit(self, bounded: BoundedLine) -> SiteSums
        requires { Room self.row }
        ensures { WithTransit bounded.line self result }
    {
        SiteSums {
            row: row::with_transit(self.row, bounded),
            transit_lacks: self.transit_lacks | (meter::ALL ^ bounded.line.meters),
            ..self
        }
    }

    // The sums of a site with one line more, which may be an input of it.
    fn input_of(self, site: u32, bounded: BoundedLine) -> SiteSums
        requires { Room self.row }
        ensures { InputAt site bounded.line self result }
    {
        if bounded.line.to != site {
            return self;
        }
        self.with_input(bounded)
    }

    // The sums of a site with one line more, which may be a transit of it.
    fn transit_of(self, site: u32, bounded: BoundedLine) -> SiteSums
        requires { Room self.row }
        ensures { TransitAt site bounded.line self result }
    {
        if bounded.line.from != site {
            return self;
        }
        self.with_transit(bounded)
    }

    // The sums of a site with one line more, which may touch it.
    #[tactic(auto, using(crate::proofs::OneSite::room_after))]
    fn touched_by(self, site: u32, bounded: BoundedLine) -> SiteSums
        requires { IsNear self.row }
        ensures { LineAt site bounded.line self result }
    {
        if (bounded.line.to != site) & (bounded.line.from != site) {
            return self;
        }
        self.input_of(site, bounded).transit_of(site, bounded)
    }
}

// Adds a line to the sums at both its ends.
fn add_line(bounded: BoundedLine, sums: &mut [SiteSums; PLACES])
    requires near { AreNear sums.old }
    requires ends { (bounded.line.to < places) × (bounded.line.from < places) }
    ensures { AddsLine bounded.line sums.old sums.new }
{
    let to = bounded.line.to as usize;
    sums[to] = sums[to].with_input(bounded);
    let from = bounded.line.from as usize;
    sums[from] = sums[from].with_transit(bounded);
}

// Adds up each line at both its ends, in an array that is lent, whatever it held.
pub fn sums<P: Accepted>(park: &P, sums: &mut [SiteSums; PLACES])
    ensures { AreSums sums.new (P.park park.now).lines (P.park park.now).lines }
{
    *sums = [SiteSums::NONE; PLACES];
    for i in 0..park.header().lines {
        add_line(BoundedLine::of(park, i), sums);
    }
}

// The tangent of each site, from the rows of the first walk and what its generators add.
pub fn tangents<P: Accepted>(park: &P, sums: &mut [SiteSums; PLACES])
    requires room { EachSite (λ k. RoomForTangent (sums_at sums.old k).row) (P.park park.now).header.sites }
    ensures { AreTangents sums.new sums.old (P.park park.now) (P.park park.now).header.sites }
{
    for k in 0..park.header().sites {
        let site = k + 1;
        let more = own::more_at(park, site);
        let its = &mut sums[site as usize];
        its.tangent = row::tangent(its.row, more);
    }
}

// Takes off the flow of the transits without a meter, each at the tangent of the site that it leaves.
pub fn after_transits<P: Accepted>(park: &P, sums: &mut [SiteSums; PLACES])
    requires { AreNear sums.old }
    ensures { AreLess sums.new sums.old (P.park park.now).lines }
{
    for i in 0..park.header().lines {
        let bounded = BoundedLine::of(park, i);
        let transit = &mut sums[bounded.line.from as usize];
        transit.row = row::with_unmetered(transit.row, transit.tangent, bounded);
    }
}

// The first walk for one site.
pub fn site_sums<P: Accepted>(park: &P, site: u32) -> SiteSums
    ensures { IsSiteSums site result (P.park park.now).lines (P.park park.now).lines }
{
    let mut sums = SiteSums::NONE;
    for i in 0..park.header().lines {
        sums = sums.touched_by(site, BoundedLine::of(park, i));
    }
    sums
}

// The row of one site less what a line takes in the second walk, if it is a transit of it.
fn less_of(
    site: u32,
    tangent: u64,
    sums: [i64; row::SIZE],
    bounded: BoundedLine,
) -> [i64; row::SIZE]
    requires { Room sums }
    ensures { LessAt site tangent bounded.line sums result }
{
    if bounded.line.from != site {
        return sums;
    }
    row::with_unmetered(sums, tangent, bounded)
}

// The second walk for one site.
pub fn site_after_transits<P: Accepted>(
    park: &P,
    site: u32,
    tangent: u64,
    before: [i64; row::SIZE],
) -> [i64; row::SIZE]
    requires near { IsNear before }
    ensures { IsLess tangent result before (transits site (P.park park.now).lines) }
{
    let mut sums = before;
    for i in 0..park.header().lines {
        // Bound first: a call whose array is laid over another gets no proof.
        let less = less_of(site, tangent, sums, BoundedLine::of(park, i));
        sums = less;
    }
    sums
}
