// What a line is made of, how it is read and how an answer is written. The program of tests/forms reads its lines by this text too.
// Slices stand for words; a word that isn't there is the empty one, which no command takes.
use super::command;
use std::io::Read;
use std::{fmt, io};

// The longest line.
const LONGEST: usize = 70000;

// The most bytes that a line holds, in hex.
pub(crate) const BYTES: usize = 35000;

// ---- words and lower-case hex

// What stands before the first `mark`, or all, and what stands behind it, or nothing.
pub(crate) fn cut(s: &[u8], mark: u8) -> (&[u8], &[u8]) {
    match s.iter().position(|b| *b == mark) {
        Some(at) => (&s[..at], &s[at + 1..]),
        None => (s, &s[s.len()..]),
    }
}

// A hex digit's value.
fn digit(c: u8) -> Option<u8> {
    match c {
        b'0'..=b'9' => Some(c - b'0'),
        b'a'..=b'f' => Some(c - b'a' + 10),
        _ => None,
    }
}

// The byte that two hex digits are.
fn byte(pair: &[u8]) -> Option<u8> {
    match pair {
        [high, low] => Some(digit(*high)? << 4 | digit(*low)?),
        _ => None,
    }
}

// Whether a word is hex, as `unhex` reads it.
fn is_hex(s: &[u8]) -> bool {
    match s {
        b"-" => true,
        _ => !s.is_empty() && s.len() % 2 == 0 && s.iter().all(|c| digit(*c).is_some()),
    }
}

// The bytes of a hex word, which go to `bytes`; `-` stands for no bytes.
pub(crate) fn unhex<'a>(s: &[u8], bytes: &'a mut [u8]) -> Option<&'a mut [u8]> {
    if s == b"-".as_slice() {
        return Some(&mut bytes[..0]);
    }
    if s.is_empty() || s.len() % 2 != 0 {
        return None;
    }
    let part = bytes.get_mut(..s.len() / 2)?;
    for (b, pair) in part.iter_mut().zip(s.chunks_exact(2)) {
        *b = byte(pair)?;
    }
    Some(part)
}

// A plain decimal number.
pub(crate) fn number(s: &[u8]) -> Option<usize> {
    if s.is_empty() {
        return None;
    }
    let mut x = 0usize;
    for c in s {
        let d = digit(*c).filter(|d| *d < 10)?;
        x = x.checked_mul(10)?.checked_add(d as usize)?;
    }
    Some(x)
}

// ---- the output, written piece by piece

pub(crate) fn text(rt: &impl Print, s: &[u8]) -> io::Result<()> {
    rt.write_all(s)
}

// The hex digits, each by itself: to format a byte as `{b:02x}` takes longer than to write two of these.
const DIGITS: [&str; 16] = [
    "0", "1", "2", "3", "4", "5", "6", "7", "8", "9", "a", "b", "c", "d", "e", "f",
];

// Bytes that are written in hex.
#[derive(Clone, Copy)]
struct HexBytes<'a>(&'a [u8]);

impl fmt::Display for HexBytes<'_> {
    fn fmt<W: fmt::Write>(&self, f: &mut fmt::Formatter<W>) -> fmt::Result {
        for b in self.0 {
            f.write_str(DIGITS[*b as usize / 16])?;
            f.write_str(DIGITS[*b as usize % 16])?;
        }
        Ok(())
    }
}

pub(crate) fn hex(rt: &impl Print, s: &[u8]) -> io::Result<()> {
    rt.print(HexBytes(s))
}

pub(crate) fn bad(rt: &impl Print) -> io::Result<()> {
    text(rt, b"bad command")
}

// ---- lines

// Hands the bytes of a hex word to a command of bytes. The word is judged first, since zeroing the room for its bytes takes longer.
pub(crate) fn with_bytes<F: FnOnce(&mut [u8]) -> io::Result<()>>(
    rt: &impl Print,
    hex: &[u8],
    answer: F,
) -> io::Result<()>
    requires { F.IsAlwaysCallable answer }
{
    if !is_hex(hex) {
        return bad(rt);
    }
    let mut bytes = [0u8; BYTES];
    match unhex(hex, &mut bytes) {
        Some(input) => answer(input),
        None => bad(rt),
    }
}

// The line so far: its length is none once it is too long.
#[derive(Drop)]
struct Line {
    bytes: [u8; LONGEST],
    len: Option<usize>,
}

impl Line {
    fn push(&mut self, b: u8) {
        self.len = match self.len {
            Some(len) if len < LONGEST => {
                self.bytes[len] = b;
                Some(len + 1)
            }
            _ => None,
        };
    }

    // Answers the line, and begins the next. One that is too long is answered as the empty one, which is no command.
    fn answer(&mut self, rt: &impl Print) -> io::Result<()> {
        let len = self.len.unwrap_or(0).min(LONGEST);
        command(rt, &self.bytes[..len])?;
        self.len = Some(0);
        text(rt, b"\n")
    }

    // Bytes of the input: of lines, and their ends.
    fn take(&mut self, rt: &impl Print, chunk: &[u8]) -> io::Result<()> {
        for b in chunk {
            if *b == b'\n' {
                self.answer(rt)?;
            } else {
                self.push(*b);
            }
        }
        Ok(())
    }
}

// Answers every line of the input; a last line without its end is a line too. What can't be read is the end of the input.
// Nothing says that the input ends, so the turns are counted, up to a number that no run uses up.
pub(crate) fn answers(rt: &impl Print, source: &mut impl Read) -> io::Result<()> {
    let mut line = Line {
        bytes: [0u8; LONGEST],
        len: Some(0),
    };
    let mut chunk = [0u8; 65536];
    for _ in 0..u64::MAX {
        let count = source.read(&mut chunk).unwrap_or(0);
        if count == 0 {
            break;
        }
        line.take(rt, &chunk[..count])?;
    }
    if line.len != Some(0) {
        line.answer(rt)?;
    }
    Ok(())
}
