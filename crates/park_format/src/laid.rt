// A file with room for all that its header says, whose header keeps the rules: its records by their index.
ghost use Rattle.std.specs.Prelude.{◌≡◌, length};
ghost use Rattle.std.proofs.Math.Option.{none};
ghost use Rattle.park_format.specs.Inner.Recorded.{Recorded};
ghost use Rattle.park_format.specs.Inner.Sized.{Sized};
ghost use Rattle.park_format.specs.Park.{header_of, park_of};
ghost use Rattle.park_format.specs.Rules.{first_broken, has_wrong_length, header_rules};

use crate::generator::Generator;
use crate::header::Header;
use crate::line::Line;
use crate::records::Records;
use crate::site::Site;

// VERSION is the version of the file, a number since a const parameter is one. Each has code of its own, which knows where its records stand and what they have no field for.
#[derive(Clone, Copy)]
pub struct Laid<'a, const VERSION: u32> {
    pub bytes: &'a [u8],
    pub header: Header,
    pub ghost its: { header ≡ header_of bytes.now },
    pub ghost version: { header.version ≡ VERSION },
    pub ghost sized: { Sized header (length bytes.now) },
    pub ghost recorded: { Recorded (park_of bytes.now) },
    pub ghost sound: { first_broken (header_rules (has_wrong_length bytes.now) header) ≡ none },
}

impl<'a, const VERSION: u32> Records for Laid<'a, VERSION> {
    ghost use Rattle.park_format.specs.Park.{park_of};

    ghost park = { λ f. park_of f.bytes.now };

    #[tactic(auto, unfolding(crate::specs::Park::park_of))]
    fn header(&self) -> Header {
        Header {
            version: VERSION,
            ..self.header
        }
    }

    fn site(&self, i: u32) -> Site {
        Site::read(self.bytes, self.header().site_start(i))
    }

    fn line(&self, i: u32) -> Line {
        Line::read(self.bytes, VERSION, self.header().line_start(i))
    }

    fn generator(&self, i: u32) -> Generator {
        Generator::read(self.bytes, self.header().generator_start(i))
    }

    ghost recorded = { λ f. f.recorded };
}
