// The program's line for an event, written into lent memory.
#![tactic(auto)]

ghost use Rattle.std.specs.Prelude.{◌≡◌, [], ◌∷◌, ◌++◌, ◌+◌, ◌*◌, ◌<◌, ◌≤◌, length};
ghost use Rattle.decoder.specs.Record.{payload as payloadIs, refusal, flag, answer_of};
ghost use Rattle.encoder.specs.Parts.{Stored};
ghost use Rattle.refusals.specs.Numbers.{discarded_bytes_no, invalid_message_no};
ghost use Rattle.lines.specs.Lines.{digit_of, hex_of, hex_four, decimal, aligned_word, line_of, line_answer, after_line, line_to};

use decoder::{DecodeErr, Event};

// What write_line says of an output that is too short for the line.
#[derive(Clone, Copy, PartialEq, Eq)]
pub struct OutputTooShort;

// The character of a digit, in lower case.
fn digit_of(n: u8) -> u8
    requires { n < 16 }
    ensures { result ≡ digit_of n }
{
    if n < 10 { b'0' + n } else { b'a' + (n - 10) }
}

// `bytes` go to `out` from `at` on; answers the place behind them. As encoder has it, which can't lend it: no public function has a `requires`.
fn put_text(out: &mut [u8], at: usize, bytes: &[u8]) -> usize
    requires { at + length bytes.now ≤ length out.old }
    ensures { Stored out.new result out.old at bytes.now }
{
    let end = at + bytes.len();
    out[at..end].copy_from_slice(bytes);
    end
}

// The two digits of a byte go to `out` from `at` on; answers the place behind them.
#[tactic(auto, unfolding(crate::specs::Lines::hex_of))]
fn put_byte(out: &mut [u8], at: usize, b: u8) -> usize
    requires { at + 2 ≤ length out.old }
    ensures { Stored out.new result out.old at (hex_of (b ∷ [])) }
{
    put_text(out, at, &[digit_of(b / 16), digit_of(b % 16)])
}

// The digits of `bytes`, two each, go to `out` from `at` on; answers the place behind them.
fn put_hex(out: &mut [u8], at: usize, bytes: &[u8]) -> usize
    requires { at + 2 * length bytes.now ≤ length out.old }
    ensures { Stored out.new result out.old at (hex_of bytes.now) }
{
    let mut o = at;
    for b in bytes {
        o = put_byte(out, o, *b);
    }
    o
}

// The four digits of a CRC go to `out` from `at` on; answers the place behind them.
fn put_crc(out: &mut [u8], at: usize, crc: u16) -> usize
    requires { at + 4 ≤ length out.old }
    ensures { Stored out.new result out.old at (hex_four crc) }
{
    put_hex(out, at, &crc.to_be_bytes())
}

// The decimal digits of n go to `out` from `at` on, those before the last by a call of itself; answers the place behind them.
fn put_decimal(out: &mut [u8], at: usize, n: u32) -> usize
    requires { at + length (decimal n) ≤ length out.old }
    ensures { Stored out.new result out.old at (decimal n) }
{
    if n < 10 {
        out[at] = digit_of(n as u8);
        return at + 1;
    }
    let last = put_decimal(out, at, n / 10);
    out[last] = digit_of((n % 10) as u8);
    last + 1
}

// A line that is whole goes to `out` where it fits.
#[tactic(auto, using(crate::proofs::Whole::line_refused, crate::proofs::Whole::line_put))]
fn write_whole(line: &[u8], out: &mut [u8]) -> Result<usize, OutputTooShort>
    ensures { after_line (line_answer result) out.new ≡ line_to line.now out.old }
{
    if out.len() < line.len() {
        return Err(OutputTooShort);
    }
    Ok(put_text(out, 0, line))
}

// A word and the digits of `bytes` are the line; that there is room for two each is asked without a product that could overflow.
#[tactic(auto, using(crate::proofs::Whole::hex_line_refused, crate::proofs::Whole::hex_line))]
fn write_hex(word: &[u8], bytes: &[u8], out: &mut [u8]) -> Result<usize, OutputTooShort>
    requires { length word.now ≤ 8 }
    ensures { after_line (line_answer result) out.new ≡ line_to (word.now ++ hex_of bytes.now ++ 10 ∷ []) out.old }
{
    let beside = word.len() + 1;
    if out.len() < beside || (out.len() - beside) / 2 < bytes.len() {
        return Err(OutputTooShort);
    }
    let at = put_text(out, 0, word);
    let end = put_hex(out, at, bytes);
    Ok(put_text(out, end, b"\n"))
}

// The payload's line; behind an empty one's word stands no blank.
#[tactic(auto, using(crate::proofs::Whole::payload_none, crate::proofs::Whole::payload_some))]
fn write_payload(payload: &[u8], out: &mut [u8]) -> Result<usize, OutputTooShort>
    ensures { after_line (line_answer result) out.new ≡ line_to (line_of (payloadIs payload.now)) out.old }
{
    if payload.is_empty() {
        return write_whole(b"payload\n", out);
    }
    write_hex(b"payload ", payload, out)
}

// The line of lost bytes; 21 places hold any.
#[tactic(auto, using(crate::proofs::Laws::decimal_ten, crate::proofs::Whole::discarded_line))]
fn write_discarded(n: u32, out: &mut [u8]) -> Result<usize, OutputTooShort>
    ensures { after_line (line_answer result) out.new ≡ line_to (line_of (refusal discarded_bytes_no (n ∷ []))) out.old }
{
    // A struct of array and length would serve two lines only: a payload's, of any length, goes to `out` itself, so places are kept there too.
    let mut line = [0u8; 21];
    let word = put_text(&mut line, 0, b"discarded ");
    let end = put_decimal(&mut line, word, n);
    let len = put_text(&mut line, end, b"\n");
    write_whole(&line[..len], out)
}

// The word for whether a frame's length was a multiple of 4, between blanks.
fn put_aligned(out: &mut [u8], at: usize, misaligned: bool) -> usize
    requires { at + 12 ≤ length out.old }
    ensures { Stored out.new result out.old at (aligned_word (flag misaligned)) }
{
    if misaligned {
        put_text(out, at, b" misaligned ")
    } else {
        put_text(out, at, b" aligned ")
    }
}

// The line of a frame that fails its test; 40 places hold any.
#[tactic(auto, using(crate::proofs::Laws::hex_length, crate::proofs::Laws::decimal_ten, crate::proofs::Whole::aligned_short, crate::proofs::Whole::invalid_line))]
fn write_invalid(
    read_crc: u16,
    calculated_crc: u16,
    misaligned: bool,
    num_padding_bytes: u8,
    out: &mut [u8],
) -> Result<usize, OutputTooShort>
    ensures { after_line (line_answer result) out.new ≡ line_to (line_of (refusal invalid_message_no (read_crc ∷ calculated_crc ∷ flag misaligned ∷ num_padding_bytes ∷ []))) out.old }
{
    let mut line = [0u8; 40];
    let word = put_text(&mut line, 0, b"invalid ");
    let read = put_crc(&mut line, word, read_crc);
    let blank = put_text(&mut line, read, b" ");
    let calculated = put_crc(&mut line, blank, calculated_crc);
    let aligned = put_aligned(&mut line, calculated, misaligned);
    let pads = put_decimal(&mut line, aligned, num_padding_bytes as u32);
    let len = put_text(&mut line, pads, b"\n");
    write_whole(&line[..len], out)
}

// The event's line goes to `out`, and its length is answered, 0 where it has none; what stands behind it there is unchanged. A refusal changes nothing. `payload` is the payload of an event that says one.
#[tactic(auto, using(crate::proofs::Whole::line_none), unfolding(crate::specs::Lines::refusal_line, crate::specs::Lines::line_of))]
pub fn write_line(event: Event, payload: &[u8], out: &mut [u8]) -> Result<usize, OutputTooShort>
    ensures { after_line (line_answer result) out.new ≡ line_to (line_of (answer_of event payload.now)) out.old }
{
    match event {
        Ok(true) => write_payload(payload, out),
        Err(DecodeErr::DiscardedBytes(n)) => write_discarded(n, out),
        Err(DecodeErr::InvalidEsc(a, b, c, d)) => write_hex(b"escape ", &[a, b, c, d], out),
        Err(DecodeErr::OutOfMemory) => write_whole(b"memory\n", out),
        Err(
            DecodeErr::InvalidMessage {
                read_crc,
                calculated_crc,
                misaligned,
                num_padding_bytes,
            },
        ) => write_invalid(read_crc, calculated_crc, misaligned, num_padding_bytes, out),
        Ok(false) | Err(DecodeErr::BadState) | Err(DecodeErr::WrongBuffer) => Ok(0),
    }
}
