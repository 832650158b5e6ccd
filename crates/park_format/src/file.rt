// A park file that keeps the rules.
ghost use Rattle.park_format.specs.Park.{park_of};
ghost use Rattle.park_format.specs.Rules.{KeepsRules};

use crate::generator::Generator;
use crate::header::Header;
use crate::laid::Laid;
use crate::line::Line;
use crate::records::{Accepted, Records};
use crate::site::Site;

// The bytes of the longest file that is accepted: the latest version, with as many sites, lines and generators as a park can have.
pub const LONGEST: usize = Header::LATER_LEN
    + Site::LEN * Header::MOST_SITES as usize
    + Line::LATER_LEN * Header::MOST_LINES as usize
    + Generator::LEN * Header::MOST_GENERATORS as usize;

#[derive(Clone, Copy)]
pub struct ParkFile<'a, const VERSION: u32> {
    pub laid: Laid<'a, VERSION>,
    pub ghost kept: { KeepsRules (park_of laid.bytes.now) },
}

impl<'a, const VERSION: u32> Records for ParkFile<'a, VERSION> {
    ghost use Rattle.park_format.specs.Park.{park_of};

    ghost park = { λ f. park_of f.laid.bytes.now };

    fn header(&self) -> Header {
        self.laid.header()
    }

    fn site(&self, i: u32) -> Site {
        self.laid.site(i)
    }

    fn line(&self, i: u32) -> Line {
        self.laid.line(i)
    }

    fn generator(&self, i: u32) -> Generator {
        self.laid.generator(i)
    }

    ghost recorded = { λ f. f.laid.recorded };
}

impl<'a, const VERSION: u32> Accepted for ParkFile<'a, VERSION> {
    ghost kept = { λ f. f.kept };
}
