// Reads a park file from standard input and prints the bill of each site, or the refusal.
#![tactic(auto)]

ghost use Rattle.std.specs.Prelude.{◌<◌, length, drop, IfOk, IfSome};
ghost use Rattle.std.specs.Io.KnownBytes.{ReadConsumes};
ghost use Rattle.park_text.specs.Answer.{answer_to};
ghost use Rattle.park_text.specs.Buffer.{Starts};
ghost use Rattle.parkbill.specs.Answers.{AnswersEvery};
ghost use Rattle.parkbill.specs.Read.{IsPrefixLen, ReadInput, ReadMore};

use park_bill::SurchargeBy;
use park_format::file;
use std::io;
use std::io::Read;

// The setting: by Formula the surcharge's factor is worked out, by Table it is read from the operators' table. The answers are the same.
const SURCHARGE: SurchargeBy = SurchargeBy::Formula;

// One byte more than the longest accepted file has, so that a longer input has the answer of those that are read. Input and text have buffers of
// fixed size, and functions answer how much of them counts, since nothing is allocated.
const ROOM: usize = file::LONGEST + 1;

// One read more, to the place after the bytes that were read before, which it keeps. It answers how many bytes it adds.
fn read_more<R: Read>(reader: &mut R, size: usize, buf: &mut [u8]) -> io::Result<usize>
    requires { size < length buf.old }
    ensures read { ReadMore size buf.old result buf.new }
    ensures bytes { ReadConsumes (R.remaining reader.old) (R.remaining reader.new) result (drop size buf.new) }
{
    reader.read(&mut buf[size..])
}

// Reads until the input ends, buf is full or a read fails, and answers how many bytes are read.
fn read_input<R: Read>(reader: &mut R, buf: &mut [u8; ROOM]) -> io::Result<usize>
    ensures { ReadInput ROOM (R.remaining reader.old) (R.remaining reader.new) result buf.new }
{
    let mut size = 0;
    while size < ROOM {
        let more = read_more(reader, size, buf)?;
        if more == 0 {
            return Ok(size);
        }
        size += more;
    }
    Ok(size)
}

// Puts the answer to the bytes read at the start of text, and answers its size.
fn answer(bytes: &[u8], text: &mut [u8; park_text::ROOM]) -> usize
    ensures text { AnswersEvery ROOM bytes.now text.old result text.new }
    ensures within { IsPrefixLen result text.new }
{
    let mut list = [0u64; park_text::NUMBERS];
    let reply = park_bill::bill_park_by(SURCHARGE, bytes, &mut list);
    let Err(refusal) = reply else {
        return park_text::bill(reply.unwrap_or(0), &list, text);
    };
    park_text::refusal(u64::from(refusal.rule), u64::from(refusal.place), text)
}

// Puts the answer to an input at the start of text, and answers its size.
fn answer_input<R: Read>(reader: &mut R, text: &mut [u8; park_text::ROOM]) -> io::Result<usize>
    ensures text { IfOk result (λ size. IfSome (R.remaining reader.old) (λ input. Starts (answer_to input) text.old size text.new)) }
    ensures within { IfOk result (λ size. IsPrefixLen size text.new) }
{
    let mut buffer = [0u8; ROOM];
    let size = read_input(reader, &mut buffer)?;
    Ok(answer(&buffer[..size], text))
}

fn main(rt: HostRuntime) {
    let mut text = [0u8; park_text::ROOM];
    match answer_input(&mut rt.stdin(), &mut text) {
        Ok(size) => {
            if let Err(error) = rt.write_all(&text[..size]) {
                let _ = eprintln!(rt; "parkbill: standard output: {error}");
            }
        }
        Err(error) => {
            let _ = eprintln!(rt; "parkbill: standard input: {error}");
        }
    }
}
