// A decoder's record in 28 plain bytes (document 02, Q-11), for a host that keeps hundreds of them in one array, and the decoder's calls over the bytes.
// Each call is thin: the bytes are unpacked, the function by value does the work, and the record that it leaves is packed again. Bytes that no packing gives are refused, and nothing is changed.
#![tactic(auto)]

ghost use Rattle.std.specs.Prelude.{◌≡◌, suc, ◌+◌, ◌*◌, ◌%◌, ◌≤◌, length};
ghost use Rattle.std.proofs.lemmas.List.Edits.{sets};
ghost use Rattle.decided.specs.Part.{handed, part_at};
ghost use Rattle.frame.specs.Frame.{same};
ghost use Rattle.decoder.specs.Record.{answer_asked};
ghost use Rattle.decoder.specs.declared.DecodeErr.TheVariants as Refusal;
ghost use Rattle.packed.specs.Layout.{low_first, number_at_claim, head_of, kind_no, small_count, noise_count, used_in, state_in, record_in, packed_in};
ghost use Rattle.packed.specs.Packed.{filled, pack_into, unpacked_as, unpack_of, kept_push, push_packed, plain_held, tried, plain_packed, kept_slice, slice_packed, kept_event, finalize_packed, kept_reset, reset_packed, payload_packed, ask_packed};
ghost use Rattle.packed.specs.Cut.{normal_head, normal_in, PlainIn, plain_bytes, plain_memory};

use decoder::{DecodeErr, DecodeState, Decoder, Event};
use in_place::Taken;
use refusals::BadSpan;

// How many bytes a record takes.
pub const LEN: usize = 28;

// Why a record isn't packed: refusals 4, 5 and 18.
#[derive(Clone, Copy, PartialEq, Eq)]
pub enum PackError {
    BadState,
    WrongBuffer,
    OutputTooShort,
}

// Refusal 4: the bytes hold no record.
#[derive(Clone, Copy, PartialEq, Eq)]
pub struct BadState;

impl From<BadState> for DecodeErr {
    ghost from_gives = { λ _ e. e ≡ Refusal.BadState };

    // A push over such bytes is refused as one over a bad record.
    fn from(_e: BadState) -> DecodeErr {
        DecodeErr::BadState
    }
}

// ---- numbers, low byte first

// The number in two bytes from `at` on. Two widths are two functions: `from_le_bytes` is of no trait.
#[tactic(auto, unfolding(crate::specs::Layout::number_at_claim))]
fn number2(bytes: &[u8], at: usize) -> u16
    requires { at + 2 ≤ length bytes.now }
    ensures { result ≡ number_at_claim bytes.now at 2 }
{
    u16::from_le_bytes([bytes[at], bytes[at + 1]])
}

// The number in four bytes from `at` on.
#[tactic(auto, unfolding(crate::specs::Layout::number_at_claim))]
fn number4(bytes: &[u8], at: usize) -> u32
    requires { at + 4 ≤ length bytes.now }
    ensures { result ≡ number_at_claim bytes.now at 4 }
{
    u32::from_le_bytes([bytes[at], bytes[at + 1], bytes[at + 2], bytes[at + 3]])
}

// The four low bytes of x go to `at` and behind it.
#[tactic(auto, using(crate::proofs::Bytes::put_low))]
fn put4(out: &mut [u8], at: usize, x: u64)
    requires { at + 4 ≤ length out.old }
    ensures { out.new ≡ sets out.old at (low_first 4 x) }
{
    out[at..at + 4].copy_from_slice(&x.to_le_bytes()[..4]);
}

// ---- the state

// Its kind, in the order of the Rust's DecodeState. The numbers are the packed format, which may not change (document 02, Q-12).
fn kind_no(s: DecodeState) -> u8
    ensures { result ≡ kind_no s }
{
    match s {
        DecodeState::LookingForMessageStart { .. } => 0,
        DecodeState::ParsingNormal => 1,
        DecodeState::ParsingEscChars(_) => 2,
        DecodeState::ParsingEscPayload(_) => 3,
        DecodeState::Done => 4,
    }
}

// Its small count, 0 where it has none.
fn small_count(s: DecodeState) -> u8
    ensures { result ≡ small_count s }
{
    match s {
        DecodeState::LookingForMessageStart {
            num_init_seq_bytes: n,
            ..
        }
        | DecodeState::ParsingEscChars(n)
        | DecodeState::ParsingEscPayload(n) => n,
        DecodeState::ParsingNormal | DecodeState::Done => 0,
    }
}

// Its noise, 0 where it is no search.
fn noise_count(s: DecodeState) -> u32
    ensures { result ≡ noise_count s }
{
    match s {
        DecodeState::LookingForMessageStart {
            num_discarded_bytes,
            ..
        } => num_discarded_bytes,
        _ => 0,
    }
}

// CRC index or raw length as it is packed: 0 behind a payload, which uses neither.
fn used_in(s: DecodeState, x: u64) -> u64
    ensures { result ≡ used_in s x }
{
    if matches!(s, DecodeState::Done) { 0 } else { x }
}

// The state of a kind, a number of the packed format. A kind over 4 is none, and `is_packing` finds it out.
#[tactic(auto, unfolding(crate::specs::Layout::state_in), using(crate::proofs::Bytes::state_over))]
fn state_in(kind: u8, small: u8, noise: u32) -> DecodeState
    ensures { result ≡ state_in kind small noise }
{
    match kind {
        0 => DecodeState::LookingForMessageStart {
            num_discarded_bytes: noise,
            num_init_seq_bytes: small,
        },
        1 => DecodeState::ParsingNormal,
        2 => DecodeState::ParsingEscChars(small),
        3 => DecodeState::ParsingEscPayload(small),
        _ => DecodeState::Done,
    }
}

// ---- packing

// Kind, small count, way and CRC register go to the first eight bytes.
#[tactic(auto, unfolding(crate::specs::Layout::low_first), using(crate::proofs::Bytes::put_all))]
fn put_head(out: &mut [u8], kind: u8, small: u8, way: u8, crc: u16)
    requires { 8 ≤ length out.old }
    ensures { out.new ≡ sets out.old 0 (head_of kind small way crc) }
{
    // Byte by byte: tried, as one array of eight it costs a push 6 instructions more.
    out[0] = kind;
    out[1] = small;
    out[2] = way;
    out[3] = 0;
    out[4..6].copy_from_slice(&crc.to_le_bytes());
    out[6] = 0;
    out[7] = 0;
}

// The record, its unused counts 0, goes to the first 28 bytes.
#[tactic(auto, unfolding(crate::specs::Layout::low_first), using(crate::proofs::Bytes::put_record))]
fn put_record(d: Decoder, out: &mut [u8])
    requires { 28 ≤ length out.old }
    ensures { out.new ≡ packed_in d out.old }
{
    let s = d.state;
    put_head(out, kind_no(s), small_count(s), d.way, d.crc);
    put4(out, 8, d.fill as u64);
    put4(out, 12, used_in(s, d.crc_idx as u64));
    put4(out, 16, used_in(s, d.raw_msg_len as u64));
    put4(out, 20, noise_count(s) as u64);
    put4(out, 24, d.capacity as u64);
}

// Packs a record into the output's first 28 bytes; those behind them stay. What is refused leaves the output as it is.
#[tactic(auto, unfolding(crate::specs::Packed::pack_into))]
pub fn pack(d: Decoder, out: &mut [u8]) -> Result<(), PackError>
    ensures { filled result out.new ≡ pack_into d out.old }
{
    if decoder::bad_decoder(d) {
        return Err(PackError::BadState);
    }
    if refusals::LIMIT < d.capacity {
        return Err(PackError::WrongBuffer);
    }
    if out.len() < LEN {
        return Err(PackError::OutputTooShort);
    }
    put_record(d, out);
    Ok(())
}

// ---- unpacking

// The record whose fields the bytes say.
#[tactic(auto, unfolding(crate::specs::Layout::record_in))]
fn record_in(bytes: &[u8]) -> Decoder
    requires { 28 ≤ length bytes.now }
    ensures { result ≡ record_in bytes.now }
{
    // No struct keeps that there are 28 bytes: its constructor's contract would say more than the three `requires` that it spares.
    Decoder {
        capacity: number4(bytes, 24) as usize,
        fill: number4(bytes, 8) as usize,
        raw_msg_len: number4(bytes, 16),
        crc: number2(bytes, 4),
        way: bytes[2],
        crc_idx: number4(bytes, 12) as usize,
        state: state_in(bytes[0], bytes[1], number4(bytes, 20)),
    }
}

// Whether packing the record that the bytes say gives these very bytes: there is such a kind, and what its state doesn't use and the three fixed bytes are 0.
fn is_packing(d: Decoder, bytes: &[u8]) -> bool
    requires { (28 ≤ length bytes.now) × (d ≡ record_in bytes.now) }
    ensures { result ≡ same (packed_in d bytes.now) bytes.now }
{
    let s = d.state;
    let idx = d.crc_idx as u64;
    let raw = d.raw_msg_len as u64;
    if kind_no(s) != bytes[0]
        || small_count(s) != bytes[1]
        || bytes[3] != 0
        || bytes[6] != 0
        || bytes[7] != 0
        || used_in(s, idx) != idx
        || used_in(s, raw) != raw
    {
        return false;
    }
    noise_count(s) == number4(bytes, 20)
}

// The record that the first 28 bytes hold, where some packing gives them.
#[tactic(auto, using(crate::proofs::Held::unpack_bad, crate::proofs::Held::unpack_over, crate::proofs::Held::unpack_short, crate::proofs::Held::unpack_same, crate::proofs::Held::unpack_other))]
pub fn unpack(bytes: &[u8]) -> Result<Decoder, BadState>
    ensures { unpacked_as result ≡ unpack_of bytes.now }
{
    if bytes.len() < LEN {
        return Err(BadState);
    }
    let d = record_in(bytes);
    if decoder::bad_decoder(d) || refusals::LIMIT < d.capacity || !is_packing(d, bytes) {
        return Err(BadState);
    }
    Ok(d)
}

// ---- the short way of a push

// ParsingNormal in the first four bytes: its kind, no small count, the first or the second way, 0.
const NORMAL_FIRST: u32 = 0x0001_0001;

const NORMAL_SECOND: u32 = 0x0002_0001;

// Whether the first four bytes say that.
#[tactic(auto, unfolding(crate::specs::Cut::normal_head))]
fn is_normal_head(head: u32) -> bool
    ensures { result ≡ normal_head head }
{
    head == NORMAL_FIRST || head == NORMAL_SECOND
}

// Whether the bytes say ParsingNormal, with 0 in all that it doesn't use.
#[tactic(auto, unfolding(crate::specs::Cut::normal_in))]
fn is_normal_in(bytes: &[u8]) -> bool
    requires { 28 ≤ length bytes.now }
    ensures { result ≡ normal_in bytes.now }
{
    is_normal_head(number4(bytes, 0)) && number2(bytes, 6) == 0 && number4(bytes, 20) == 0
}

// Whether the bytes are some packing's, and b a byte of its frame that is no 1b and has room: what most bytes are. The record itself isn't made.
fn is_plain_in(bytes: &[u8], lent: usize, b: u8) -> bool
    ensures { result ≡ plain_held (unpack_of bytes.now) lent b }
{
    if bytes.len() < LEN || !is_normal_in(bytes) || b == Decoder::ESC {
        return false;
    }
    let fill = number4(bytes, 8);
    if lent <= fill as usize
        || fill < number4(bytes, 12)
        || number4(bytes, 16) < Decoder::START_LEN
        || lent != number4(bytes, 24) as usize
    {
        return false;
    }
    lent <= refusals::LIMIT
}

// Stores such a byte, and counts it.
#[tactic(auto, unfolding(crate::specs::Cut::plain_bytes, crate::specs::Cut::plain_memory))]
fn store_plain(bytes: &mut [u8], buf: &mut [u8], b: u8)
    requires { PlainIn bytes.old (length buf.old) b }
    ensures { (bytes.new ≡ plain_bytes bytes.old) × (buf.new ≡ plain_memory bytes.old buf.old b) }
{
    let fill = number4(bytes, 8);
    let raw = number4(bytes, 16);
    buf[fill as usize] = b;
    put4(bytes, 8, fill as u64 + 1);
    put4(bytes, 16, raw.saturating_add(1) as u64);
}

// Pushes a byte that is plain, which says nothing, and gives true; any other is left for push_packed.
#[tactic(auto, using(crate::proofs::Plain::plain_in, crate::proofs::Plain::plain_stored, crate::proofs::Plain::left_undone))]
pub fn push_plain(bytes: &mut [u8], buf: &mut [u8], b: u8) -> bool
    ensures { tried result bytes.new buf.new ≡ plain_packed bytes.old buf.old b }
{
    if is_plain_in(bytes, buf.len(), b) {
        store_plain(bytes, buf, b);
        return true;
    }
    false
}

// ---- the decoder's calls over the bytes

// Pushes a byte.
#[tactic(auto, unfolding(crate::specs::Packed::push_packed), using(crate::proofs::Held::held_room, crate::proofs::Held::push_held_lem))]
pub fn push_packed(bytes: &mut [u8], buf: &mut [u8], b: u8) -> Event
    ensures { kept_push result bytes.new buf.new ≡ push_packed bytes.old buf.old b }
{
    let d = unpack(bytes)?;
    let r = d.push_byte(buf, b);
    put_record(r.decoder, bytes);
    r.event
}

// Pushes bytes until the first event.
#[tactic(auto, unfolding(crate::specs::Packed::slice_packed), using(crate::proofs::Held::held_room, crate::proofs::Held::slice_held_lem))]
pub fn push_slice_packed(bytes: &mut [u8], buf: &mut [u8], chunk: &[u8]) -> Taken
    ensures { kept_slice result bytes.new buf.new ≡ slice_packed bytes.old buf.old chunk.now }
{
    let Ok(d) = unpack(bytes) else {
        return Taken {
            event: Err(DecodeErr::BadState),
            taken: 0,
        };
    };
    let r = decoder_slice::push_slice(d, buf, chunk);
    put_record(r.decoder, bytes);
    Taken {
        event: r.event,
        taken: r.taken,
    }
}

// Says how many bytes are lost, if any; the decoder begins again.
#[tactic(auto, unfolding(crate::specs::Packed::finalize_packed), using(crate::proofs::Held::held_room))]
pub fn finalize_packed(bytes: &mut [u8]) -> Event
    ensures { kept_event result bytes.new ≡ finalize_packed bytes.old }
{
    let d = unpack(bytes)?;
    let r = d.finalize();
    put_record(r.decoder, bytes);
    r.event
}

// Gives the number of bytes that are lost; the decoder begins again. By value every record can be reset.
#[tactic(auto, unfolding(crate::specs::Packed::reset_packed), using(crate::proofs::Held::held_room))]
pub fn reset_packed(bytes: &mut [u8]) -> Result<u32, BadState>
    ensures { kept_reset result bytes.new ≡ reset_packed bytes.old }
{
    let d = unpack(bytes)?;
    let r = d.reset();
    put_record(r.decoder, bytes);
    Ok(r.count)
}

// The payload: the buffer's first bytes, from the push that said it to the next. Otherwise the empty part, as with the record.
#[tactic(auto, unfolding(crate::specs::Packed::payload_packed))]
pub fn payload_packed<'a>(bytes: &[u8], buf: &'a [u8]) -> &'a [u8]
    ensures { handed result ≡ part_at (handed buf.entry) 0 (payload_packed bytes.now buf.now) }
{
    match unpack(bytes) {
        Ok(d) => d.payload(buf),
        Err(_) => &buf[..0],
    }
}

// Whether a payload stands in the buffer; where none does, `payload_packed` gives the empty part.
#[tactic(auto, unfolding(crate::specs::Packed::ask_packed))]
pub fn ask_payload_packed(bytes: &[u8], buf: &[u8]) -> Result<(), BadSpan>
    ensures { answer_asked result ≡ ask_packed bytes.now buf.now }
{
    unpack(bytes).map_err(|_| BadSpan)?.ask_payload(buf)
}
