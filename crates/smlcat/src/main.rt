// Document 01's program: reads standard input to its end and prints a line for each event of the decoder. Started with the argument -2 it searches in the second way (document 02, Q-7); all else is the same.
#![tactic(auto)]

ghost use Rattle.std.specs.Prelude.{◌≡◌, ◌≤◌, IfOk, OnErr, length, take};
ghost use Rattle.decoder.specs.Record.{answer_of, payload_record};
ghost use Rattle.lines.specs.Lines.{line_of};
ghost use Rattle.smlcat.specs.Fed.{held, fed, StoppedIn};

use decoder::{Decoder, Event};
use std::io;
use std::io::Read;
use std::rt::Env;

// The line of what the decoder said, at the start of `line`; answers its length. `payload `, two digits for each of 4,096 bytes and the newline fit in 8,201 places, so none is refused.
fn line_of(e: Event, d: Decoder, buf: &[u8; 4096], line: &mut [u8; 8201]) -> usize
    ensures { (result ≤ length line.new) × (take result line.new ≡ line_of (answer_of e (payload_record d buf.now))) }
{
    lines::write_line(e, d.payload(buf), line).unwrap_or(0)
}

// Writes the line, which is empty where there is none, at once. BadState and WrongBuffer never come: the decoder is a new one's, and its buffer is always the same.
fn print_event(rt: &impl Print, e: Event, d: Decoder, buf: &[u8; 4096]) -> io::Result<()> {
    let mut line = [0u8; 8201];
    let n = line_of(e, d, buf, &mut line);
    rt.write_all(&line[..n])
}

// Pushes the bytes of a chunk, event by event, and prints what each says. A refused push takes no byte, and nor would the next.
fn drive(rt: &impl Print, d: Decoder, buf: &mut [u8; 4096], chunk: &[u8]) -> io::Result<Decoder>
    ensures ok { IfOk result (λ left. held left buf.new ≡ fed d buf.old chunk.now) }
    ensures err { OnErr result (StoppedIn d buf.old chunk.now buf.new) }
{
    let mut at = d;
    // `i` goes on by as many bytes as each push took.
    let mut i = 0;
    while i < chunk.len() {
        let p = decoder_slice::push_slice(at, buf, &chunk[i..]);
        at = p.decoder;
        print_event(rt, p.event, at, buf)?;
        if p.taken == 0 {
            return Ok(at);
        }
        i += p.taken;
    }
    Ok(at)
}

// Reads once, and pushes what came: the decoder behind it, or none at the end of the input. What can't be read is the end.
fn turn(
    rt: &impl Print,
    source: &mut impl Read,
    d: Decoder,
    buf: &mut [u8; 4096],
) -> io::Result<Option<Decoder>> {
    let mut chunk = [0u8; 4096];
    let n = source.read(&mut chunk).unwrap_or(0);
    if n == 0 {
        return Ok(None);
    }
    Ok(Some(drive(rt, d, buf, &chunk[..n])?))
}

// Turns until the input ends; the count makes it end for certain.
fn run(
    rt: &impl Print,
    source: &mut impl Read,
    d: Decoder,
    buf: &mut [u8; 4096],
) -> io::Result<Decoder> {
    let mut at = d;
    for _ in 0..u64::MAX {
        match turn(rt, source, at, buf)? {
            Some(left) => at = left,
            None => return Ok(at),
        }
    }
    Ok(at)
}

// The way of searching that the first argument asks for: the second where it is `-2`, else document 01's. One that is longer than `word` has the answer 0.
// What the program was started with is not proved: `arg` promises no more than that its answer lies within `word`.
fn way_asked(rt: &impl Env) -> u8 {
    let mut word = [0u8; 2];
    if rt.arg(1, &mut word).unwrap_or(0) == 2 && word == *b"-2" {
        Decoder::SECOND_WAY
    } else {
        Decoder::FIRST_WAY
    }
}

fn main(rt: HostRuntime) -> io::Result<()> {
    let mut buf = [0u8; 4096];
    let begun = Decoder::with_way(4096, way_asked(&rt));
    let last = run(&rt, &mut rt.stdin(), begun, &mut buf)?;
    let f = last.finalize();
    print_event(&rt, f.event, f.decoder, &buf)
}
