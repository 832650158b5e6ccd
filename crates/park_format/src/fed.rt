// The sites with an input line, as a 16-bit set.
ghost use Rattle.std.specs.Prelude.{◌≡◌, ◌||◌, ℕ, suc, ◌≤◌, eqb};
ghost use Rattle.park_format.specs.Inner.Set.{has, Lowest, Unfed};
ghost use Rattle.park_format.specs.Limits.{most_sites};
ghost use Rattle.park_format.specs.Rules.{refusal_of};

use crate::rule::{Refusal, Rule};

// The set with one site alone, by its number; that of the network, 0, is empty. It is looked up: with a shift check of the largest park takes 7
// percent longer.
const ALONE: [u16; 17] = [
    0, 1, 2, 4, 8, 16, 32, 64, 128, 256, 512, 1024, 2048, 4096, 8192, 16384, 32768,
];

// The set with the site that a line goes to; the network, 0, adds nothing.
pub fn with(fed: u16, to: u32) -> u16
    requires { to ≤ most_sites }
    ensures { (j : ℕ) → has result j ≡ (has fed j || eqb to (suc j)) }
{
    fed | ALONE[to as usize]
}

// How many sites from the first on are in the set: the lowest that is missing comes after them. 16 if none is.
fn before_missing(fed: u16) -> u32
    ensures { Lowest fed result }
{
    (!fed).trailing_zeros()
}

// Rule 19 in a park of as many sites, by the set of those with an input line.
pub fn check(fed: u16, sites: u32) -> Result<(), Refusal>
    ensures { Unfed fed sites (refusal_of result) }
{
    let before = before_missing(fed);
    if before < sites {
        return Err(Rule::Unfed.at(before + 1));
    }
    Ok(())
}
