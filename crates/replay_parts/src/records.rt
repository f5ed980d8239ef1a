// The commands `unpack` and `pack`: a decoder's record out of bytes and into them, each field by itself.
use super::line::{bad, cut, hex, number, text, unhex, with_bytes};
use decoder::{DecodeState, Decoder};
use packed::PackError;
use std::io;

// The largest number of the fields that a record has as usize.
const COUNT: usize = 9007199254740992;

// ---- unpack

// A state's number, its small count and its noise, each 0 where it has none.
fn told(s: DecodeState) -> (u8, u8, u32) {
    match s {
        DecodeState::LookingForMessageStart {
            num_discarded_bytes: noise,
            num_init_seq_bytes: n,
        } => (0, n, noise),
        DecodeState::ParsingNormal => (1, 0, 0),
        DecodeState::ParsingEscChars(n) => (2, n, 0),
        DecodeState::ParsingEscPayload(n) => (3, n, 0),
        DecodeState::Done => (4, 0, 0),
    }
}

fn record(rt: &impl Print, d: Decoder) -> io::Result<()> {
    let Decoder {
        capacity,
        fill,
        raw_msg_len,
        crc,
        way,
        crc_idx,
        state,
    } = d;
    let (kind, n, noise) = told(state);
    print!(rt;
        "kind={kind} n={n} way={way} crc={crc:04x} fill={fill} idx={crc_idx} raw={raw_msg_len} noise={noise} cap={capacity}"
    )
}

pub(crate) fn unpack(rt: &impl Print, bytes: &[u8]) -> io::Result<()> {
    match packed::unpack(bytes) {
        Ok(d) => record(rt, d),
        Err(_) => text(rt, b"refused 4"),
    }
}

// ---- pack

fn refusal(e: PackError) -> u8 {
    match e {
        PackError::BadState => 4,
        PackError::WrongBuffer => 5,
        PackError::OutputTooShort => 18,
    }
}

fn in_hex(rt: &impl Print, bytes: &[u8]) -> io::Result<()> {
    if bytes.is_empty() {
        return text(rt, b"-");
    }
    hex(rt, bytes)
}

fn pack_into(rt: &impl Print, d: Decoder, out: &mut [u8]) -> io::Result<()> {
    if let Err(e) = packed::pack(d, out) {
        print!(rt; "refused {} ", refusal(e))?;
    }
    in_hex(rt, out)
}

// A state without a count has none, and outside of a search there is no noise.
fn state(kind: u8, n: u8, noise: u32) -> Option<DecodeState> {
    match (kind, n, noise) {
        (0, _, _) => Some(DecodeState::LookingForMessageStart {
            num_discarded_bytes: noise,
            num_init_seq_bytes: n,
        }),
        (1, 0, 0) => Some(DecodeState::ParsingNormal),
        (2, _, 0) => Some(DecodeState::ParsingEscChars(n)),
        (3, _, 0) => Some(DecodeState::ParsingEscPayload(n)),
        (4, 0, 0) => Some(DecodeState::Done),
        _ => None,
    }
}

// The words of a command that are left.
#[derive(Drop)]
struct Words<'a>(&'a [u8]);

impl<'a> Words<'a> {
    fn word(&mut self) -> &'a [u8] {
        let (word, rest) = cut(self.0, b' ');
        self.0 = rest;
        word
    }

    // A number that the type holds.
    fn number<T: TryFrom<usize>>(&mut self) -> Option<T>
    where
        T::Error: Drop,
    {
        T::try_from(number(self.word())?).ok()
    }

    fn count(&mut self) -> Option<usize> {
        number(self.word()).filter(|n| *n <= COUNT)
    }

    // Four hex digits.
    fn crc(&mut self) -> Option<u16> {
        let word = self.word();
        let mut bytes = [0u8; 2];
        if word.len() != 4 {
            return None;
        }
        unhex(word, &mut bytes)?;
        Some(u16::from_be_bytes(bytes))
    }
}

// KIND N WAY CRC FILL IDX RAW NOISE CAP, each within its limit.
fn record_of(words: &mut Words<'_>) -> Option<Decoder> {
    let kind = words.number()?;
    let n = words.number()?;
    let way = words.number()?;
    let crc = words.crc()?;
    let fill = words.count()?;
    let crc_idx = words.count()?;
    let raw_msg_len = words.number()?;
    let noise = words.number()?;
    Some(Decoder {
        capacity: words.count()?,
        fill,
        raw_msg_len,
        crc,
        way,
        crc_idx,
        state: state(kind, n, noise)?,
    })
}

// The nine fields of a record, and what the output holds.
pub(crate) fn pack(rt: &impl Print, rest: &[u8]) -> io::Result<()> {
    let mut words = Words(rest);
    match record_of(&mut words) {
        Some(d) => with_bytes(rt, words.0, |out| pack_into(rt, d, out)),
        None => bad(rt),
    }
}
