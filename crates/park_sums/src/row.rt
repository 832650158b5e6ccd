// What the walks over the lines add up for a site, its inputs less its transits: a row of numbers, whose places have names.
ghost use Rattle.std.specs.Prelude.{◌≡◌, ℕ, ◌≤◌, ◌<◌, get_or, length, pos, ◌+ℤ◌, ◌-ℤ◌, nat_abs};
ghost use Rattle.park_format.specs.Limits.{most_active, most_loss, most_losses, most_net};
ghost use Rattle.park_charge.specs.Losses.{above_zero, split_sum};
ghost use Rattle.park_sums.specs.Inner.Rows.{at, gains, losses, IsDifference, IsSum, Room, RoomForTangent, size, takes, takes_later, tangent_from};

use crate::bounded::BoundedLine;
use park_charge::Split;
use std::array;

// How many numbers it has.
pub const SIZE: usize = 9;

// An array whose places have names, and no struct: one step runs over all nine numbers.
// Places: WP of the lines that count for the tangent, the reactive flow, WG and WN.
pub const ACTIVE: usize = 0;

pub const FLOW: usize = 1;

pub const GENERATED: usize = 2;

pub const NIGHT: usize = 3;

// Flow, WG and WN times D.
pub const LOSSES: usize = 4;

pub const GENERATED_LOSSES: usize = 5;

pub const NIGHT_LOSSES: usize = 6;

// Of inputs alone: D, and how many they are.
pub const EERP: usize = 7;

pub const COUNT: usize = 8;

// The two steps that with_each takes.
// A sum with a number added to it.
pub fn plus(sum: i64, more: u64) -> i64
    requires { (nat_abs sum ≤ most_net) × (more ≤ most_loss) }
    ensures { result ≡ sum +ℤ pos more }
{
    sum + more as i64
}

// A sum with a number taken from it.
pub fn minus(sum: i64, less: u64) -> i64
    requires { (nat_abs sum ≤ most_net) × (less ≤ most_loss) }
    ensures { result ≡ sum -ℤ pos less }
{
    sum - less as i64
}

// That a row has room for a line, Room, no type can promise: each line uses some of it up.
// A row with a step made at each of its places, by the number at that place.
fn with_each<F: Fn(i64, u64) -> i64>(row: [i64; SIZE], numbers: [u64; SIZE], step: F) -> [i64; SIZE]
    requires { (i : ℕ) → i < size → F.pre step (at row i) (get_or numbers i 0) }
    ensures long { length result ≡ size }
    ensures each { (i : ℕ) → i < size → F.post step (at row i) (get_or numbers i 0) (at result i) }
{
    array::from_fn(|i| step(row[i], numbers[i]))
}

// What is added or taken off differs here, and the step; one function that is told which would be longer.
// The row with one input more.
pub fn with_input(row: [i64; SIZE], bounded: BoundedLine) -> [i64; SIZE]
    requires { Room row }
    ensures { IsSum result row (gains bounded.line) }
{
    with_each(row, bounded.gains(), plus)
}

// The row with one transit more, but for the flow of one without a meter.
pub fn with_transit(row: [i64; SIZE], bounded: BoundedLine) -> [i64; SIZE]
    requires { Room row }
    ensures { IsDifference result row (takes bounded.line) }
{
    with_each(row, bounded.takes(), minus)
}

// The row less the flow of a transit without a meter.
pub fn with_unmetered(row: [i64; SIZE], tangent: u64, bounded: BoundedLine) -> [i64; SIZE]
    requires { Room row }
    ensures { IsDifference result row (takes_later tangent bounded.line) }
{
    with_each(row, bounded.takes_later(tangent), minus)
}

// A number of a row, 0 where it is negative.
pub fn net(row: [i64; SIZE], i: usize) -> u64
    requires { (Room row) × (i < size) }
    ensures { result ≡ above_zero (at row i) }
{
    park_charge::above_zero(row[i])
}

// Step 5: the weighted sum of a row, as settled losses or as a cut.
pub fn split(row: [i64; SIZE]) -> Split
    requires { (Room row) × (nat_abs (at row losses) ≤ most_losses) }
    ensures { result ≡ split_sum (at row losses) }
{
    park_charge::split_sum(row[LOSSES])
}

// The sum of two numbers, 0 where it is negative.
fn above_zero(a: i64, b: i64) -> u64
    requires { (nat_abs a ≤ most_net) × (nat_abs b ≤ most_net) }
    ensures sum { result ≡ above_zero (a +ℤ b) }
    ensures most { result ≤ most_active }
{
    park_charge::above_zero(a + b)
}

// Step 2: the tangent of a row after the first walk, with what is added to WP0 for the site's generators.
pub fn tangent(row: [i64; SIZE], more: i64) -> u64
    requires { (RoomForTangent row) × (nat_abs more ≤ most_net) }
    ensures { result ≡ tangent_from more row }
{
    park_charge::tangent(above_zero(row[ACTIVE], more), net(row, FLOW))
}
