// Ports the case `1` of Parser::parse_next of parser/streaming.rs, what ends a message, and EndOfSmlMessage of parser/common.rs.
#![tactic(auto)]

ghost use Rattle.std.specs.Prelude.{◌≡◌, ◌≤◌, length};
ghost use Rattle.tlf.specs.Answers.{place_read};
ghost use Rattle.trailer.specs.Trailer.{message_end_at, swapped, crc_from, trailer_at};

use numbers::SmlParse;
use refusals::{Fault, ParseError};

// EndOfSmlMessage of the Rust. Public because 15 is its own rule, which can then be asked alone.
#[tactic(auto, unfolding(crate::specs::Trailer::message_end_at, refusals::specs::Read::then, refusals::specs::Read::guard))]
pub fn parse_message_end(input: &[u8], at: usize) -> Result<usize, Fault>
    ensures { place_read result ≡ message_end_at input.now at }
{
    let (b, next) = refusals::take_byte(input, at)?;
    if b != 0x00 {
        return Err(ParseError::MsgEndMismatch.at(at));
    }
    Ok(next)
}

// The CRC of the bytes from `start` up to `at`; of no bytes if `start` is behind `at`.
#[tactic(auto, unfolding(crate::specs::Trailer::crc_from))]
fn message_crc(input: &[u8], start: usize, at: usize) -> u16
    requires { at ≤ length input.now }
    ensures { result ≡ crc_from input.now start at }
{
    if start <= at {
        return crc_x25::checksum(&input[start..at]);
    }
    crc_x25::checksum(&[])
}

// The CRC and the end byte of the message that starts at `start`; the CRC's own length byte stands at `at`. It stands high byte first in a message. Public for streaming.
#[tactic(auto, unfolding(crate::specs::Trailer::trailer_at, refusals::specs::Read::then, refusals::specs::Read::guard))]
pub fn parse_trailer(input: &[u8], start: usize, at: usize) -> Result<usize, Fault>
    ensures { place_read result ≡ trailer_at input.now start at }
{
    let (crc, n) = u16::parse(input, at)?;
    let next = parse_message_end(input, n)?;
    let digest = message_crc(input, start, at).swap_bytes();
    if crc != digest {
        return Err(ParseError::CrcMismatch.at(at));
    }
    Ok(next)
}
