// The call that makes a park file.
ghost use Rattle.std.specs.Prelude.{◌≡◌};
ghost use Rattle.park_format.specs.Call.{reply_of};
ghost use Rattle.park_encode.specs.Encode.{buffer_after, encode_outcome};

use crate::{list, write};
use park_format::records::Records;
use park_format::rule::{Refusal, Rule};

// Writes the park file of a list of numbers, of version 1, at the start of a buffer, and replies its length; the bytes after it stay, and
// after a refusal all of them. It takes numbers of any count, and a buffer of any length.
pub fn encode(numbers: &[u32], file: &mut [u8]) -> Result<usize, Refusal>
    ensures reply { reply_of result ≡ encode_outcome numbers.now file.old }
    ensures file { file.new ≡ buffer_after numbers.now file.old }
{
    list::check(numbers)?;
    let list = list::accepted(numbers);
    let size = list.header().size();
    if file.len() < size {
        return Err(Rule::ShortBuffer.at(0));
    }
    write::write_park(&list, file);
    Ok(size)
}
