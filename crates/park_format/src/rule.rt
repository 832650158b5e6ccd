// The rules of the park file and of the calls, and the refusal by one of them.
ghost use Rattle.std.specs.Prelude.{◌≡◌};
ghost use Rattle.park_format.specs.Rules.{broken_at, refusal_of, rule_number, zero_or_above};

// A rule, with the number by which it is told.
#[derive(Clone, Copy, Debug, PartialEq, Eq)]
pub enum Rule {
    // Too short for the shortest header.
    TooShort = 1,
    // Header and length.
    Mark = 2,
    Version = 3,
    Month = 4,
    Sites = 5,
    Lines = 6,
    Price = 7,
    Hours = 8,
    Generators = 25,
    Length = 9,
    // A site.
    Power = 10,
    Flag = 11,
    Devices = 12,
    Discount = 13,
    // A line.
    EndAbove = 14,
    BothNetwork = 23,
    Backwards = 24,
    Meters = 15,
    Eerp = 16,
    ReadingAbove = 17,
    Readings = 18,
    // A generator.
    GeneratorSite = 26,
    GeneratorOutput = 27,
    // A site without an input.
    Unfed = 19,
    // The calls: no such site, and a list or a buffer that is too short.
    NoSuchSite = 20,
    ShortList = 21,
    ShortBuffer = 22,
}

#[derive(Clone, Copy, Debug, PartialEq, Eq)]
pub struct Refusal {
    pub rule: Rule,
    // A site, a line or a generator counted from 1; 0 for all else, as the calls and the texts tell it.
    pub place: u32,
}

impl Rule {
    // The refusal by this rule at a place. It ends the loops over records, which are faster without it: where it is inlined, encode of the largest
    // list takes a tenth longer and check of the largest park 4 percent.
    #[cold]
    #[inline(never)]
    pub fn at(self, place: u32) -> Refusal
        ensures { result ≡ record { rule = self; place = place } }
    {
        Refusal { rule: self, place }
    }
}

// What a rule that may be broken refuses at a place.
pub fn at_place(kept: Result<(), Rule>, place: u32) -> Result<(), Refusal>
    ensures { refusal_of result ≡ broken_at kept place }
{
    kept.map_err(|rule| rule.at(place))
}

// The number by which a rule is told.
impl From<Rule> for u64 {
    ghost from_gives = { λ rule number. number ≡ rule_number rule };

    fn from(rule: Rule) -> u64
        ensures { result ≡ rule_number rule }
    {
        rule as u64
    }
}

// Whether x is 0 or above the most that it may be.
pub fn zero_or_above(most: u32, x: u32) -> bool
    ensures { result ≡ zero_or_above most x }
{
    !(1..=most).contains(&x)
}
