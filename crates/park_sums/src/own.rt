// What a site's own generators add to its WP0.
ghost use Rattle.std.specs.Prelude.{◌≡◌, ◌≤◌, eqb, nat_abs, pos, ◌+ℤ◌, ◌-ℤ◌};
ghost use Rattle.park_format.specs.Limits.{most_generators, most_losses, most_net, most_outputs, most_reading};
ghost use Rattle.park_format.specs.Park.{generators_at, inputs, transits};
ghost use Rattle.park_sums.specs.Inner.Rows.{GivenAt, IsGiven, more_at, when, with_output};

use crate::row;
use park_format::generator::Generator;
use park_format::line::Line;
use park_format::records::Accepted;
use std::hint::select_unpredictable;

// What the generators of a site give together, in kWh, and how many they are: two sums, since an Option that is added up would need a case for the
// first generator.
#[derive(Clone, Copy)]
struct Given {
    output: u64,
    count: u64,
}

impl Given {
    // With one generator more, which may be of the site.
    fn with(self, site: u32, generator: Generator) -> Given
        requires room { (self.output ≤ most_outputs) × (self.count ≤ most_generators) }
        requires small { generator.output ≤ most_reading }
        ensures { GivenAt site generator self result }
    {
        if generator.site != site {
            return self;
        }
        Given {
            output: self.output + generator.output as u64,
            count: self.count + 1,
        }
    }
}

// The generators of one site of an accepted park.
fn given_at<P: Accepted>(park: &P, site: u32) -> Given
    ensures given { IsGiven result (generators_at site (P.park park.now).generators) }
    ensures most { result.output ≤ most_outputs }
{
    let mut given = Given {
        output: 0,
        count: 0,
    };
    for i in 0..park.header().generators {
        given = given.with(site, park.generator(i));
    }
    given
}

// A sum with the active generation of a line, if that is a transit of the site, and less it, if it is an input.
fn with_line(site: u32, sum: i64, line: Line) -> i64
    requires { (nat_abs sum ≤ most_losses) × (line.produced ≤ most_reading) }
    ensures { result ≡ (sum +ℤ pos (when (eqb line.from site) line.produced)) -ℤ pos (when (eqb line.to site) line.produced) }
{
    let out = select_unpredictable(line.from == site, line.produced as u64, 0);
    let into = select_unpredictable(line.to == site, line.produced as u64, 0);
    row::minus(row::plus(sum, out), into)
}

// An output with the active generation of a site's transits, less that of its inputs.
fn with_lines<P: Accepted>(park: &P, site: u32, output: u64) -> i64
    requires small { output ≤ most_outputs }
    ensures sum { result ≡ with_output output (inputs site (P.park park.now).lines) (transits site (P.park park.now).lines) }
    ensures most { nat_abs result ≤ most_net }
{
    let mut sum = output as i64;
    for i in 0..park.header().lines {
        sum = with_line(site, sum, park.line(i));
    }
    sum
}

// What is added to the WP0 of one site of an accepted park, 0 if it has no generator.
pub fn more_at<P: Accepted>(park: &P, site: u32) -> i64
    ensures more { result ≡ more_at site (P.park park.now) }
    ensures most { nat_abs result ≤ most_net }
{
    let given = given_at(park, site);
    if given.count == 0 {
        return 0;
    }
    with_lines(park, site, given.output)
}
