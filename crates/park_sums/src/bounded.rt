// A line whose numbers can be added up, and what it adds to the rows of the sites at its ends.
ghost use Rattle.std.specs.Prelude.{◌≡◌, ◌<◌, get_or};
ghost use Rattle.park_format.specs.Park.{no_line};
ghost use Rattle.park_sums.specs.Inner.Rows.{gains, places, SmallLine, takes, takes_later};

use crate::row;
use park_format::line::Line;
use park_format::meter::Meter;
use park_format::records::Accepted;
use std::hint::select_unpredictable;

// A line of small numbers.
#[derive(Clone, Copy)]
pub struct BoundedLine {
    pub line: Line,
    pub ghost small: { SmallLine line },
}

impl BoundedLine {
    // Line i of an accepted park, counted from 0, whose ends are places among the sums.
    pub fn of<P: Accepted>(park: &P, i: u32) -> BoundedLine
        requires { i < (P.park park.now).header.lines }
        ensures line { result.line ≡ get_or (P.park park.now).lines i no_line }
        ensures ends { (result.line.to < places) × (result.line.from < places) }
    {
        BoundedLine { line: park.line(i) }
    }

    // What an input adds.
    pub fn gains(self) -> [u64; row::SIZE]
        ensures { result ≡ gains self.line }
    {
        let line = self.line;
        let eerp = line.eerp as u64;
        let active = line.active as u64;
        let generated = line.generated as u64;
        let night = line.night as u64;
        let flow = park_charge::inflow(
            line.measures(Meter::Reactive),
            active,
            line.reactive as u64,
        );
        [
            active,
            flow,
            generated,
            night,
            flow * eerp,
            generated * eerp,
            night * eerp,
            eerp,
            1,
        ]
    }

    // What a transit takes in the first walk. A reading without its meter is 0 (rule 18), so only WP asks for one.
    pub fn takes(self) -> [u64; row::SIZE]
        ensures { result ≡ takes self.line }
    {
        let line = self.line;
        let eerp = line.eerp as u64;
        let reactive = line.reactive as u64;
        let generated = line.generated as u64;
        let night = line.night as u64;
        let measured = select_unpredictable(line.measures(Meter::Reactive), line.active as u64, 0);
        [
            measured,
            reactive,
            generated,
            night,
            reactive * eerp,
            generated * eerp,
            night * eerp,
            0,
            0,
        ]
    }

    // What a transit without a meter of reactive consumption takes in the second walk, by the tangent of its site.
    pub fn takes_later(self, tangent: u64) -> [u64; row::SIZE]
        ensures { result ≡ takes_later tangent self.line }
    {
        let line = self.line;
        let active = select_unpredictable(!line.measures(Meter::Reactive), line.active as u64, 0);
        let flow = park_charge::estimated_outflow(tangent, active);
        [0, flow, 0, 0, flow * line.eerp as u64, 0, 0, 0, 0]
    }
}
