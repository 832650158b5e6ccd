// A text that is written piece by piece into a lent buffer. A Cursor of the standard library would do, but no contract says that its writes
// keep to the slice that was lent, and those of write! may fail.
ghost use Rattle.std.specs.Prelude.{◌+◌, ◌*◌, ◌≤◌, length};

use crate::ROOM;
use itoa::Buffer;

// Each method asks for the room of its text, which no type can promise: each text uses some of it up.
#[derive(Drop)]
pub struct Writer<'a> {
    out: &'a mut [u8; ROOM],
    // The size of the text so far, which stands at the start of the buffer.
    pub size: usize,
}

impl<'a> Writer<'a> {
    ghost use Rattle.park_text.specs.Inner.Writer.{Begins, Writes};
    ghost use Rattle.park_text.specs.Text.{decimal, fields_text};

    pub fn new(out: &'a mut [u8; ROOM]) -> Writer<'a>
        ensures { Begins out.entry result }
    {
        Writer { out, size: 0 }
    }

    #[tactic(auto, using(std::proofs::lemmas::Slice::overwrites))]
    pub fn bytes(&mut self, text: &[u8])
        requires { self.old.size + length text.now ≤ ROOM }
        ensures { Writes text.now self.old self.new }
    {
        let start = self.size;
        let end = start + text.len();
        let out = &mut *self.out;
        out[start..end].copy_from_slice(text);
        self.size = end;
    }

    // A number in decimal, with no leading zeros.
    #[tactic(auto, using(crate::proofs::Digits::std_decimal))]
    pub fn number(&mut self, n: u64)
        requires { self.old.size + length (decimal n) ≤ ROOM }
        ensures { Writes (decimal n) self.old self.new }
    {
        let mut digits = Buffer::new();
        self.bytes(digits.format(n).as_bytes());
    }

    // A comma and a number for each number of a list.
    #[tactic(auto, using(crate::proofs::Digits::length_word), unfolding(crate::specs::Text::fields_text))]
    pub fn fields(&mut self, numbers: &[u64])
        requires { self.old.size + 21 * length numbers.now ≤ ROOM }
        ensures text { Writes (fields_text numbers.now) self.old self.new }
        ensures size { self.new.size ≤ self.old.size + 21 * length numbers.now }
    {
        for n in numbers {
            self.bytes(b",");
            self.number(*n);
        }
    }
}
