// The commands that the library has no call for, one a line, and an answer of one line each (docs/REPLAY.md): leaf, tlf, unpack and pack. A line that is none of them is answered `bad command`.
#![tactic(auto)]

mod fields;
mod leaf;
mod length_field;
mod line;
mod records;

use line::{bad, cut, with_bytes};
use std::io;

// ---- the commands

pub(crate) fn command(rt: &impl Print, s: &[u8]) -> io::Result<()> {
    let (name, rest) = cut(s, b' ');
    match name {
        b"leaf" => leaf::leaf(rt, rest),
        b"tlf" => with_bytes(rt, rest, |input| length_field::length_field(rt, input)),
        b"unpack" => with_bytes(rt, rest, |input| records::unpack(rt, input)),
        b"pack" => records::pack(rt, rest),
        _ => bad(rt),
    }
}

fn main(rt: HostRuntime) -> io::Result<()> {
    line::answers(&rt, &mut rt.stdin())
}
