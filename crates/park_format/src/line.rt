// A line record of a park file, and its rules.
ghost use Rattle.std.specs.Prelude.{◌≡◌, cond, ℕ, ◌+◌, ◌*◌, ◌^◌, ◌≤◌, ◌<◌, eqb, length};
ghost use Rattle.park_format.specs.Format.{line_size, number_at, shortest_line};
ghost use Rattle.park_format.specs.Inner.Stored.{Stored};
ghost use Rattle.park_format.specs.Made.{line_bytes};
ghost use Rattle.park_format.specs.Park.{line_at};
ghost use Rattle.park_format.specs.Inner.Meters.{measures};
ghost use Rattle.park_format.specs.Rules.{broken_at, first_broken, line_rules, backwards, both_network, end_above, wrong_meters, reading_above, wrong_readings};

use crate::header::Header;
use crate::meter::Meter;
use crate::rule::Rule;
use crate::{number, rule};

#[derive(Clone, Copy, Debug, PartialEq, Eq)]
pub struct Line {
    // The site that the line comes from, and the one it goes to; 0 is the network. Numbers, since they are read before rules 14, 23 and
    // 24 are asked.
    pub from: u32,
    pub to: u32,
    // The meter mark, the sum of its meters; any number, since it is read before rule 15 is asked, and an enum would need a case for every
    // wrong one.
    pub meters: u32,
    // D, ten-thousandths of kW/kVAr.
    pub eerp: u32,
    // The readings: WP in kWh; WQ, WG and WN in kVArh.
    pub active: u32,
    pub reactive: u32,
    pub generated: u32,
    pub night: u32,
    // Active generation, kWh; 0 in version 1.
    pub produced: u32,
}

impl Line {
    // Bytes in version 1, and from version 2 on.
    pub const LEN: usize = 21;

    pub const LATER_LEN: usize = 25;

    // Where the fields after the first begin.
    const AT_TO: usize = 1;

    const AT_METERS: usize = 2;

    const AT_EERP: usize = 3;

    const AT_ACTIVE: usize = 5;

    const AT_REACTIVE: usize = 9;

    const AT_GENERATED: usize = 13;

    const AT_NIGHT: usize = 17;

    const AT_PRODUCED: usize = 21;

    // The rules of a line, those of the table from its last row on.
    const RULES: [Rule; 7] = [
        Rule::Readings,
        Rule::ReadingAbove,
        Rule::Eerp,
        Rule::Meters,
        Rule::Backwards,
        Rule::BothNetwork,
        Rule::EndAbove,
    ];

    // Limits of rules 16 and 17.
    pub const MOST_EERP: u32 = 5_000;

    pub const MOST_READING: u32 = 10_000_000;

    // By the version that a file states, as Header::len, here and in the next two.
    // The bytes of as many lines.
    #[tactic(auto, unfolding(crate::specs::Format::line_size))]
    pub fn bytes(version: u32, count: usize) -> usize
        requires { count < 2 ^ 32 }
        ensures size { result ≡ line_size version * count }
        ensures most { result ≤ 25 * count }
    {
        if version == Header::FIRST_VERSION {
            return Line::LEN * count;
        }
        Line::LATER_LEN * count
    }

    // The active generation in the record that starts at a position; 0 in version 1.
    #[tactic(auto, unfolding(crate::specs::Format::line_size))]
    fn produced_at(file: &[u8], version: u32, at: usize) -> u32
        requires { at + line_size version ≤ length file.now }
        ensures { result ≡ cond (eqb version 1) 0 (number_at 4 file.now (at + 21)) }
    {
        if version == Header::FIRST_VERSION {
            return 0;
        }
        number::read::<4>(file, at + Line::AT_PRODUCED)
    }

    // The record that starts at a position, all of it within the file.
    #[tactic(auto, using(crate::proofs::Fields::line_at_lem))]
    pub fn read(file: &[u8], version: u32, at: usize) -> Line
        requires within { at + line_size version ≤ length file.now }
        requires first { at + shortest_line ≤ length file.now }
        ensures { result ≡ line_at version file.now at }
    {
        Line {
            from: number::read::<1>(file, at),
            to: number::read::<1>(file, at + Line::AT_TO),
            meters: number::read::<1>(file, at + Line::AT_METERS),
            eerp: number::read::<2>(file, at + Line::AT_EERP),
            active: number::read::<4>(file, at + Line::AT_ACTIVE),
            reactive: number::read::<4>(file, at + Line::AT_REACTIVE),
            generated: number::read::<4>(file, at + Line::AT_GENERATED),
            night: number::read::<4>(file, at + Line::AT_NIGHT),
            produced: Line::produced_at(file, version, at),
        }
    }

    // Writes the record of version 1 from a position on, all of it within the file: of a number that is too large for its field, the lowest
    // bytes.
    pub fn write(self, file: &mut [u8], at: usize)
        requires { at + shortest_line ≤ length file.old }
        ensures { Stored (line_bytes 1 self) at file.old file.new }
    {
        number::write::<1>(file, at, self.from);
        number::write::<1>(file, at + Line::AT_TO, self.to);
        number::write::<1>(file, at + Line::AT_METERS, self.meters);
        number::write::<2>(file, at + Line::AT_EERP, self.eerp);
        number::write::<4>(file, at + Line::AT_ACTIVE, self.active);
        number::write::<4>(file, at + Line::AT_REACTIVE, self.reactive);
        number::write::<4>(file, at + Line::AT_GENERATED, self.generated);
        number::write::<4>(file, at + Line::AT_NIGHT, self.night);
    }

    // Whether the line has a meter.
    pub fn measures(self, meter: Meter) -> bool
        ensures { result ≡ measures meter self.meters }
    {
        meter.is_in(self.meters)
    }

    // Rule 14: an end is above the number of sites.
    fn end_above(self, sites: u32) -> bool
        ensures { result ≡ end_above sites self }
    {
        (sites < self.from) | (sites < self.to)
    }

    // Rule 23: both ends are the network.
    fn both_network(self) -> bool
        ensures { result ≡ both_network self }
    {
        (self.from == 0) & (self.to == 0)
    }

    // Rule 24: neither end is the network, and `from` is not below `to`.
    fn backwards(self) -> bool
        ensures { result ≡ backwards self }
    {
        (self.from != 0) & ((self.to != 0) & (self.to <= self.from))
    }

    // Rule 15: the meter mark is none of those that the version accepts. Beside each stand the signs of columns 5 to 9 in the table of annex
    // item 10. A+ is + on every line, and version 1 says nothing of A–.
    fn wrong_meters(self, version: u32) -> bool
        ensures { result ≡ wrong_meters version self.meters }
    {
        let later = version != Header::FIRST_VERSION;
        let mark = self.meters;
        let accepted = match mark {
            //            A+ Р+ A– Р– ЗН
            0 => true, // +  –  –  –  –   active consumption
            1 => true, // +  +  –  –  –   and reactive consumption
            2 => true, // +  –  –  +  –   and reactive generation
            3 => true, // +  +  –  +  –   and reactive consumption, reactive generation
            4..=5 => false, // ЗН without Р–: the night valley without reactive generation
            6 => true, // +  –  –  +  +   and reactive generation, its night valley
            7 => true, // +  +  –  +  +   and reactive consumption, reactive generation, its night valley
            //              A+ Р+ A– Р– ЗН
            8 => later, //  +  –  +  –  –   and active generation
            9 => later, //  +  +  +  –  –   and active generation, reactive consumption
            10 => later, // +  –  +  +  –   and active generation, reactive generation
            11 => later, // +  +  +  +  –   and active generation, reactive consumption, reactive generation
            12..=13 => false, // ЗН without Р–: as 4 and 5
            14 => later, // +  –  +  +  +   and active generation, reactive generation, its night valley
            15 => later, // +  +  +  +  +   and all of these
            _ => false, // 16 and above: no such meters
        };
        !accepted
    }

    // Rule 17: a reading is above its most.
    fn reading_above(self) -> bool
        ensures { result ≡ reading_above self }
    {
        (Line::MOST_READING < self.active)
            | ((Line::MOST_READING < self.reactive)
                | ((Line::MOST_READING < self.generated)
                    | ((Line::MOST_READING < self.night) | (Line::MOST_READING < self.produced))))
    }

    // A reading that has no meter; 0 where it has one.
    fn unmetered(metered: bool, reading: u32) -> u64
        ensures value { result ≡ cond metered 0 reading }
        ensures bound { result < 2 ^ 32 }
    {
        if metered { 0 } else { reading as u64 }
    }

    // Rule 18: a reading is not 0 and has no meter, or the night's generation is above the whole.
    fn wrong_readings(self) -> bool
        ensures { result ≡ wrong_readings self }
    {
        let reactive = Line::unmetered(self.measures(Meter::Reactive), self.reactive);
        let generated = Line::unmetered(self.measures(Meter::Generated), self.generated);
        let night = Line::unmetered(self.measures(Meter::Night), self.night);
        let produced = Line::unmetered(self.measures(Meter::Produced), self.produced);
        (reactive + generated + night + produced != 0) | (self.generated < self.night)
    }

    // The first rule that the line breaks in a park with that header, if it breaks one. Inlined where the record is read: a line that is passed in
    // memory makes check of the largest park nearly twice as slow.
    #[inline(always)]
    #[tactic(auto, unfolding(crate::specs::Rules::line_rules, crate::specs::Rules::first_broken))]
    pub fn check(self, header: Header) -> Result<(), Rule>
        ensures { (place : ℕ) → broken_at result place ≡ first_broken (line_rules header place self) }
    {
        // Every test is made before the first is asked: accepted lines differ in their marks, and a jump by the mark alone would often be
        // guessed wrongly by the processor. What they come to is one number, which is asked once.
        let end_above = self.end_above(header.sites);
        let both_network = self.both_network();
        let backwards = self.backwards();
        let wrong_meters = self.wrong_meters(header.version);
        let wrong_eerp = rule::zero_or_above(Line::MOST_EERP, self.eerp);
        let reading_above = self.reading_above();
        let wrong_readings = self.wrong_readings();
        // How many rules are left from the first broken one on, which is then RULES[left - 1]; 0 if none is broken.
        let left = if end_above {
            7
        } else if both_network {
            6
        } else if backwards {
            5
        } else if wrong_meters {
            4
        } else if wrong_eerp {
            3
        } else if reading_above {
            2
        } else if wrong_readings {
            1
        } else {
            0
        };
        if left == 0 {
            return Ok(());
        }
        Err(Line::RULES[left - 1])
    }
}
