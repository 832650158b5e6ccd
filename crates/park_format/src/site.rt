// A site record of a park file, and its rules.
ghost use Rattle.std.specs.Prelude.{◌≡◌, cond, ℕ, ◌+◌, ◌≤◌, length};
ghost use Rattle.park_format.specs.Format.{site_size};
ghost use Rattle.park_format.specs.Inner.Stored.{Stored};
ghost use Rattle.park_format.specs.Limits.{most_flag, most_installed};
ghost use Rattle.park_format.specs.Made.{site_bytes};
ghost use Rattle.park_format.specs.Park.{site_at};
ghost use Rattle.park_format.specs.Rules.{broken_at, first_broken, has_devices, is_station, site_rules, wrong_devices, wrong_flag};

use crate::header::Header;
use crate::rule::Rule;
use crate::{number, rule};

#[derive(Clone, Copy, Debug, PartialEq, Eq)]
pub struct Site {
    // Permitted power, kW.
    pub power: u32,
    // The flag, a sum: 1 where compensation or generating devices exist, 2 at a power station; a number, since it is read before rule 11 is asked, and
    // an enum would need a case for every wrong one.
    pub flag: u32,
    // Installed compensation Q, kVAr.
    pub compensation: u32,
    // High-voltage synchronous motors P, kW.
    pub motors: u32,
    // The discount h, thousandths.
    pub discount: u32,
}

impl Site {
    // Bytes.
    pub const LEN: usize = 11;

    // Where the fields after the first begin.
    const AT_FLAG: usize = 4;

    const AT_COMPENSATION: usize = 5;

    const AT_MOTORS: usize = 7;

    const AT_DISCOUNT: usize = 9;

    // Limits of rules 10 to 13.
    pub const MOST_POWER: u32 = 1_000_000;

    pub const MOST_FLAG: u32 = 1;

    pub const LATER_MOST_FLAG: u32 = 3;

    pub const MOST_INSTALLED: u32 = 20_000;

    pub const MOST_DISCOUNT: u32 = 1_000;

    // The record that starts at a position, all of it within the file.
    #[tactic(auto, using(crate::proofs::Fields::site_at_lem))]
    pub fn read(file: &[u8], at: usize) -> Site
        requires { at + site_size ≤ length file.now }
        ensures { result ≡ site_at file.now at }
    {
        Site {
            power: number::read::<4>(file, at),
            flag: number::read::<1>(file, at + Site::AT_FLAG),
            compensation: number::read::<2>(file, at + Site::AT_COMPENSATION),
            motors: number::read::<2>(file, at + Site::AT_MOTORS),
            discount: number::read::<2>(file, at + Site::AT_DISCOUNT),
        }
    }

    // Writes the record from a position on, all of it within the file: of a number that is too large for its field, the lowest bytes.
    pub fn write(self, file: &mut [u8], at: usize)
        requires { at + site_size ≤ length file.old }
        ensures { Stored (site_bytes self) at file.old file.new }
    {
        number::write::<4>(file, at, self.power);
        number::write::<1>(file, at + Site::AT_FLAG, self.flag);
        number::write::<2>(file, at + Site::AT_COMPENSATION, self.compensation);
        number::write::<2>(file, at + Site::AT_MOTORS, self.motors);
        number::write::<2>(file, at + Site::AT_DISCOUNT, self.discount);
    }

    // Whether compensation or generating devices exist.
    pub fn has_devices(self) -> bool
        ensures { result ≡ has_devices self }
    {
        self.flag & 1 == 1
    }

    // Whether the site is a power station.
    pub fn is_station(self) -> bool
        ensures { result ≡ is_station self }
    {
        (self.flag >> 1) & 1 == 1
    }

    // The most that a flag may be in a version.
    fn most_flag(version: u32) -> u32
        ensures { result ≡ most_flag version }
    {
        if version == Header::FIRST_VERSION {
            Site::MOST_FLAG
        } else {
            Site::LATER_MOST_FLAG
        }
    }

    // Rule 11: the flag is above the most of the version.
    fn wrong_flag(self, version: u32) -> bool
        ensures { result ≡ wrong_flag version self.flag }
    {
        Site::most_flag(version) < self.flag
    }

    // The most that Q and P may be: 0 where there are no devices.
    fn most_installed(self) -> u32
        ensures { result ≡ cond (has_devices self) most_installed 0 }
    {
        if self.has_devices() {
            Site::MOST_INSTALLED
        } else {
            0
        }
    }

    // Rule 12: Q or P is above its most.
    fn wrong_devices(self) -> bool
        ensures { result ≡ wrong_devices self }
    {
        let most = self.most_installed();
        (most < self.compensation) | (most < self.motors)
    }

    // The first rule that the site breaks in a park with that header, if it breaks one.
    #[tactic(auto, unfolding(crate::specs::Rules::site_rules, crate::specs::Rules::first_broken))]
    pub fn check(self, header: Header) -> Result<(), Rule>
        ensures { (place : ℕ) → broken_at result place ≡ first_broken (site_rules header place self) }
    {
        if rule::zero_or_above(Site::MOST_POWER, self.power) {
            return Err(Rule::Power);
        }
        if self.wrong_flag(header.version) {
            return Err(Rule::Flag);
        }
        if self.wrong_devices() {
            return Err(Rule::Devices);
        }
        if Site::MOST_DISCOUNT < self.discount {
            return Err(Rule::Discount);
        }
        Ok(())
    }
}
