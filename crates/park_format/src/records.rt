// The records of a park by their index, whatever they are read from, and the check of them all.
ghost use Rattle.std.specs.Prelude.{◌≡◌, ℕ};
ghost use Rattle.park_format.specs.Inner.Recorded.{record_rules};
ghost use Rattle.park_format.specs.Inner.Set.{Walks};
ghost use Rattle.park_format.specs.Rules.{broken_at, each, first_broken, generator_rules, line_rules, refusal_of, site_rules};

use crate::generator::Generator;
use crate::header::Header;
use crate::line::Line;
use crate::rule::{Refusal, Rule};
use crate::site::Site;
use crate::{fed, rule};

pub trait Records {
    ghost use Rattle.std.specs.Prelude.{◌≡◌, ◌<◌, get_or};
    ghost use Rattle.park_format.specs.Inner.Recorded.{Recorded};
    ghost use Rattle.park_format.specs.Park.{Park, no_generator, no_line, no_site};

    // The park that they are of.
    ghost park: { Self → Park };

    fn header(&self) -> Header
        ensures { result ≡ (park self.now).header };

    // Site i, counted from 0; so are the lines and the generators.
    fn site(&self, i: u32) -> Site
        requires { i < (park self.now).header.sites }
        ensures { result ≡ get_or (park self.now).sites i no_site };

    fn line(&self, i: u32) -> Line
        requires { i < (park self.now).header.lines }
        ensures { result ≡ get_or (park self.now).lines i no_line };

    fn generator(&self, i: u32) -> Generator
        requires { i < (park self.now).header.generators }
        ensures { result ≡ get_or (park self.now).generators i no_generator };

    ghost recorded: { (x : Self) → Recorded (park x) };
}

// The records of a park that keeps the rules.
pub trait Accepted: Records {
    ghost use Rattle.park_format.specs.Rules.{KeepsRules};

    ghost kept: { (x : Self) → KeepsRules (Self.park x) };
}

// Sites, lines and generators have a loop each: what is asked of them differs, and one function that is told what to ask would be longer.
// The first broken rule of the sites, in their order, if one is broken.
fn check_sites<R: Records>(records: &R) -> Result<(), Refusal>
    ensures { refusal_of result ≡ first_broken (each (site_rules (R.park records.now).header) 1 (R.park records.now).sites) }
{
    let header = records.header();
    for k in 0..header.sites {
        rule::at_place(records.site(k).check(header), k + 1)?;
    }
    Ok(())
}

// The first broken rule of the lines, in their order, or, if none is broken, the sites that they go to.
fn check_lines<R: Records>(records: &R) -> Result<u16, Refusal>
    ensures { Walks result (first_broken (each (line_rules (R.park records.now).header) 1 (R.park records.now).lines)) (R.park records.now).lines }
{
    let header = records.header();
    let mut fed = 0;
    for i in 0..header.lines {
        let line = records.line(i);
        rule::at_place(line.check(header), i + 1)?;
        fed = fed::with(fed, line.to);
    }
    Ok(fed)
}

// The first rule that a generator breaks, if it breaks one.
fn check_generator<R: Records>(records: &R, generator: Generator) -> Result<(), Rule>
    ensures { (place : ℕ) → broken_at result place ≡ first_broken (generator_rules (R.park records.now).header (R.park records.now).sites place generator) }
{
    if rule::zero_or_above(records.header().sites, generator.site) {
        return Err(Rule::GeneratorSite);
    }
    if !records.site(generator.site - 1).has_devices() {
        return Err(Rule::GeneratorSite);
    }
    if Generator::MOST_OUTPUT < generator.output {
        return Err(Rule::GeneratorOutput);
    }
    Ok(())
}

// The first broken rule of the generators, in their order, if one is broken.
fn check_generators<R: Records>(records: &R) -> Result<(), Refusal>
    ensures { refusal_of result ≡ first_broken (each (generator_rules (R.park records.now).header (R.park records.now).sites) 1 (R.park records.now).generators) }
{
    for i in 0..records.header().generators {
        rule::at_place(check_generator(records, records.generator(i)), i + 1)?;
    }
    Ok(())
}

// The first broken rule of the records, and of the park as a whole, if one is broken.
pub fn check<R: Records>(records: &R) -> Result<(), Refusal>
    ensures { refusal_of result ≡ first_broken (record_rules (R.park records.now)) }
{
    check_sites(records)?;
    let fed = check_lines(records)?;
    check_generators(records)?;
    fed::check(fed, records.header().sites)
}
