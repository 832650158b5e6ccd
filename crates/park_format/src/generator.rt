// A generator record of a park file.
ghost use Rattle.std.specs.Prelude.{◌≡◌, ◌+◌, ◌≤◌, length};
ghost use Rattle.park_format.specs.Format.{generator_size};
ghost use Rattle.park_format.specs.Park.{generator_at};

use crate::number;

#[derive(Clone, Copy, Debug, PartialEq, Eq)]
pub struct Generator {
    // The site that it belongs to.
    pub site: u32,
    // Its active generation, kWh.
    pub output: u32,
}

impl Generator {
    // Bytes.
    pub const LEN: usize = 5;

    // Where the second field begins.
    const AT_OUTPUT: usize = 1;

    // Limit of rule 27.
    pub const MOST_OUTPUT: u32 = 10_000_000;

    // The record that starts at a position, all of it within the file.
    #[tactic(auto, using(crate::proofs::Fields::generator_at_lem))]
    pub fn read(file: &[u8], at: usize) -> Generator
        requires { at + generator_size ≤ length file.now }
        ensures { result ≡ generator_at file.now at }
    {
        Generator {
            site: number::read::<1>(file, at),
            output: number::read::<4>(file, at + Generator::AT_OUTPUT),
        }
    }
}
