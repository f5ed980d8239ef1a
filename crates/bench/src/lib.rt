// What bench/run counts the instructions of, through the exports of crate bench_c.
#![tactic(auto)]

ghost use Rattle.std.specs.Prelude.{◌≡◌, [], ◌<◌, ◌≤◌, length};
ghost use Rattle.crc_x25.specs.Crc.{crc_of};
ghost use Rattle.frame.specs.Frame.{frame_of};
ghost use Rattle.decoder.specs.Push.{first_way, second_way, sized};
ghost use Rattle.decoder.specs.Record.{new_record};
ghost use Rattle.packed.specs.Packed.{pack_into};
ghost use Rattle.decoder.specs.Record as D;
ghost use Rattle.encoder.specs.Encode as E;
ghost use Rattle.refusals.specs.Numbers.{limit};
ghost use Rattle.streaming.specs.Answers.{said};
ghost use Rattle.common.specs.Fields.{entry_at};
ghost use Rattle.common.specs.Answers.{list_entry};
ghost use Rattle.bench.specs.Bench.{counted, one, payloads_from, payloads, took_in, took_over, length_in, encoded, sum, streamed, is_event, events, first_writer, written_times, writes_of_entry};

use common::ListEntry;
use decoder::{Decoder, Event};
use encoder::{EncodeError, Encoder};
use numbers::SmlParse;
use streaming::{Answer, Reader};
use writer::{ListState, ListWriter};

// 1 for a payload, 0 for all else.
fn one_payload(e: Event) -> u64
    ensures { (result ≡ one (D.answer_of e [])) × (result ≤ 1) }
{
    (e == Ok(true)) as u64
}

// The payloads in `src`, by single pushes.
#[tactic(auto, using(crate::proofs::Pushes::push_next, crate::proofs::Pushes::all_counted))]
pub fn bench_push(src: &[u8], buf: &mut [u8]) -> u64
    ensures { counted result buf.new ≡ payloads first_way src.now buf.old }
{
    let mut at = Decoder::new(buf.len());
    let mut n: u64 = 0;
    for b in src {
        let p = at.push_byte(buf, *b);
        at = p.decoder;
        n += one_payload(p.event);
    }
    n
}

// Where the slice that begins at `i` ends: `step` bytes on, or at the end where fewer are left or `step` is 0.
fn lent_to(i: usize, end: usize, step: usize) -> usize
    requires { i < end }
    ensures { (i < result) × (result ≤ end) }
{
    if step == 0 {
        return end;
    }
    end.min(i.saturating_add(step))
}

// The payloads in `src` for this decoder, by pushes of slices. A refused push takes no byte, and nor would the next.
#[tactic(auto, using(crate::proofs::Pushes::taken_room, crate::proofs::Pushes::slice_next, crate::proofs::Pushes::all_counted))]
fn push_slices(d: Decoder, src: &[u8], buf: &mut [u8], step: usize) -> u64
    ensures { counted result buf.new ≡ payloads_from 0 d buf.old src.now }
{
    let mut at = d;
    let mut n: u64 = 0;
    let mut i = 0;
    // No `for`: each push says how far it went.
    while i < src.len() {
        let to = lent_to(i, src.len(), step);
        let p = decoder_slice::push_slice(at, buf, &src[i..to]);
        at = p.decoder;
        if p.taken == 0 {
            return n;
        }
        n += one_payload(p.event);
        i += p.taken;
    }
    n
}

// The payloads in `src`, by pushes of slices of `step` bytes at most, or of all that are left for 0: how they are cut changes nothing.
pub fn bench_push_slice(src: &[u8], buf: &mut [u8], step: usize) -> u64
    ensures { counted result buf.new ≡ payloads first_way src.now buf.old }
{
    push_slices(Decoder::new(buf.len()), src, buf, step)
}

// The same in the second way of searching.
pub fn bench_push_slice_second(src: &[u8], buf: &mut [u8], step: usize) -> u64
    ensures { counted result buf.new ≡ payloads second_way src.now buf.old }
{
    let d = Decoder::with_way(buf.len(), Decoder::SECOND_WAY);
    push_slices(d, src, buf, step)
}

// A new decoder of this capacity, packed into `bytes`, for bench_packed.
pub fn bench_pack(bytes: &mut [u8], capacity: usize)
    ensures { bytes.new ≡ (pack_into (new_record (sized capacity)) bytes.old).output }
{
    let _ = packed::pack(Decoder::new(capacity), bytes);
}

// One push of a slice over the bytes of a decoder: how many bytes it took.
pub fn bench_packed(bytes: &mut [u8], buf: &mut [u8], chunk: &[u8]) -> usize
    ensures { took_in result bytes.new buf.new ≡ took_over bytes.old buf.old chunk.now }
{
    packed::push_slice_packed(bytes, buf, chunk).taken
}

// The length of the frame that encode wrote, or 0.
fn frame_length(r: Result<usize, EncodeError>) -> u64
    ensures { result ≡ length_in (E.encode_answer r) }
{
    r.unwrap_or(0) as u64
}

// The length of the payload's frame, which goes to `out`.
pub fn bench_encode(payload: &[u8], out: &mut [u8]) -> u64
    ensures { counted result out.new ≡ encoded payload.now out.old }
{
    frame_length(encoder::encode(payload, out))
}

// The sum of the bytes that an Encoder gives: it goes on as long as it gives one.
#[tactic(auto, using(crate::proofs::Streams::first_left, crate::proofs::Streams::first_sum))]
fn sum_given(payload: &[u8]) -> u64
    requires { length payload.now ≤ limit }
    ensures { result ≡ sum (frame_of payload.now) }
{
    let mut e = Encoder::new();
    let mut total: u64 = 0;
    for _ in 0..2 * payload.len() + 19 {
        let g = e.next(payload);
        let Ok(Some(b)) = g.answer else {
            return total;
        };
        e = g.encoder;
        total += b as u64;
    }
    total
}

// The sum of the bytes of the payload's frame, by an Encoder.
#[tactic(auto, using(crate::proofs::Streams::streamed_long, crate::proofs::Streams::streamed_all))]
pub fn bench_stream(payload: &[u8]) -> u64
    ensures { result ≡ streamed payload.now }
{
    if refusals::LIMIT < payload.len() {
        return 0;
    }
    sum_given(payload)
}

// Whether a call of the reader gave an event.
fn is_event(answer: Answer) -> bool
    ensures { result ≡ is_event (said answer) }
{
    matches!(answer, Ok(Some(_)))
}

// The events of `input`, up to the first call that brings none.
#[tactic(auto, using(crate::proofs::Events::none_yet, crate::proofs::Events::no_more_lem, crate::proofs::Events::none_left_lem))]
pub fn bench_events(input: &[u8]) -> u64
    ensures { result ≡ events input.now }
{
    let mut reader = Reader {
        place: 0,
        start: 0,
        pending: 0,
    };
    for n in 0..input.len() {
        let r = reader.parse_next(input);
        if !is_event(r.answer) {
            return n as u64;
        }
        reader = r.reader;
    }
    input.len() as u64
}

// The check value of `src`.
pub fn bench_crc(src: &[u8]) -> u64
    ensures { result ≡ crc_of src.now }
{
    crc_x25::checksum(src) as u64
}

// The check value of `src`, a byte a call.
#[tactic(auto, unfolding(crc_x25::specs::Crc::crc_of), using(crc_x25::proofs::Laws::register_none, crc_x25::proofs::Fours::register_more))]
pub fn bench_crc_byte(src: &[u8]) -> u64
    ensures { result ≡ crc_of src.now }
{
    let mut reg = crc_x25::digest();
    for b in src {
        reg = crc_x25::update_byte(reg, *b);
    }
    crc_x25::finalize(reg) as u64
}

// An entry written so many times, each behind the one before; how many there was room for.
fn write_again(input: &[u8], out: &mut [u8], entry: ListEntry, count: u32) -> u64
    ensures { counted result out.new ≡ written_times count out.old (first_writer count) input.now (list_entry entry) }
{
    let mut w = ListWriter {
        place: 0,
        state: ListState::Entries {
            left: count,
            crc: crc_x25::digest(),
        },
    };
    for n in 0..count {
        match writer::write_list_entry(out, w, input, entry) {
            Ok(v) => w = v,
            Err(_) => return n as u64,
        }
    }
    count as u64
}

// The entry at the input's start, written so many times.
pub fn bench_write(input: &[u8], out: &mut [u8], count: u32) -> u64
    ensures { counted result out.new ≡ writes_of_entry (entry_at input.now 0) out.old count input.now }
{
    match ListEntry::parse(input, 0) {
        Ok((entry, _)) => write_again(input, out, entry, count),
        Err(_) => 0,
    }
}
