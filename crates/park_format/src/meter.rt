// The meters that a mark is the sum of.
ghost use Rattle.std.specs.Prelude.{◌≡◌};
ghost use Rattle.park_format.specs.Inner.Meters.{measures};

#[derive(Clone, Copy, Debug, PartialEq, Eq)]
pub enum Meter {
    // Of reactive consumption, 1.
    Reactive,
    // Of generation, 2.
    Generated,
    // Of night-valley generation, 4.
    Night,
    // Of active generation, 8.
    Produced,
}

// The mark with all of them.
pub const ALL: u32 = 15;

impl Meter {
    // Whether a mark has this meter.
    pub fn is_in(self, mark: u32) -> bool
        ensures { result ≡ measures self mark }
    {
        (mark >> self as u32) & 1 == 1
    }
}
