// The story that this project began with: a public key of 48 bytes needs a two-byte length, 83 02, and the length counts
// both of its own bytes. Whoever takes off one reads 49 bytes and cuts every field behind the key wrong.
#![tactic(auto)]

use numbers::SmlParse;
use refusals::{Fault, Span};
use std::io;

// Each of these prints one field and answers where the next one stands; a refusal prints its place.
fn string(rt: &impl Print, input: &[u8], at: usize) -> io::Result<usize> {
    match Span::parse(input, at) {
        Ok((span, next)) => {
            println!(rt; "string {}", span.start)?;
            println!(rt; "  of {}", span.len)?;
            Ok(next)
        }
        Err(f) => refused(rt, f),
    }
}

fn unsigned<T: SmlParse + Into<u64>>(
    rt: &impl Print,
    input: &[u8],
    at: usize,
) -> io::Result<usize> {
    match T::parse(input, at) {
        Ok((value, next)) => {
            println!(rt; "unsigned {}", value.into())?;
            Ok(next)
        }
        Err(f) => refused(rt, f),
    }
}

fn refused(rt: &impl Print, f: Fault) -> io::Result<usize> {
    println!(rt; "refused at {}", f.place)?;
    Ok(f.place)
}

fn main(rt: HostRuntime) -> io::Result<()> {
    let input =
        b"\x07\x81\x81\xc7\x82\x05\xff\x83\x02\x00\x01\x02\x03\x04\x05\x06\x07\x08\x09\x0a\x0b\x0c\x0d\x0e\x0f\x10\x11\x12\x13\x14\x15\x16\x17\x18\x19\x1a\x1b\x1c\x1d\x1e\x1f\x20\x21\x22\x23\x24\x25\x26\x27\x28\x29\x2a\x2b\x2c\x2d\x2e\x2f\x62\x1e\x65\x01\x02\x03\x04\x04abc";
    let key = string(&rt, input, 0)?;
    let unit = string(&rt, input, key)?;
    let count = unsigned::<u8>(&rt, input, unit)?;
    let text = unsigned::<u32>(&rt, input, count)?;
    let end = string(&rt, input, text)?;
    println!(rt; "end {end}")
}
