// What a collector in C or Rust calls (include/sartrogheo.h), through the exports of crate sartrogheo_c. Pointers and numbers come in, and a number goes out; what else a call has to say goes into what it is lent.
// Each call is thin: the decoder's 28 bytes, an Encoder's, a writer's or a watch's four numbers or a reader's three are taken as they come, the function that is there does the work, and its answer is put into numbers.
#![tactic(auto)]

ghost use Rattle.std.specs.Prelude.{◌≡◌, Ok, Err, ℕ, [], ◌∷◌, ◌+◌, ◌*◌, ◌≤◌};
ghost use Rattle.std.proofs.lemmas.List.Edits.{sets};
ghost use Rattle.crc_x25.specs.Crc.{crc_of};
ghost use Rattle.refusals.specs.Answers.{fault_of};
ghost use Rattle.encoder.specs.Encode.{encode_answer};
ghost use Rattle.encoder.specs.Encoder.{next_answer};
ghost use Rattle.decoder.specs.Record.{answer_err, answer_asked};
ghost use Rattle.packed.specs.Packed.{filled};
ghost use Rattle.message.specs.Answers.{message_body, message_start};
ghost use Rattle.streaming.specs.Answers.{said, parse_event};
ghost use Rattle.writer.specs.Answers.{error_number, list_written, after_write};
ghost use Rattle.words.specs.Words.{event_words};
ghost use Rattle.whole.specs.Whole.{flat};
ghost use Rattle.whole.specs.Answers.{opt_list_end, whole_read};
ghost use Rattle.index.specs.Answers.{entry_row, indexed, found_by};
ghost use Rattle.tlf.specs.Written.{ty_number};
ghost use Rattle.walk.specs.Answers.{item_read, walked};
ghost use Rattle.sartrogheo.specs.Calls.{reply, answer_no, sgh_decoder_new, sgh_push_byte, sgh_push_slice, sgh_payload, sgh_finalize, sgh_reset, encode_no, sgh_encode};
ghost use Rattle.sartrogheo.specs.Streams.{end_count, encoder_words, state_of_kind, encoder_in, next_no, sgh_encoder_new, sgh_encoder_next, reader_no, sgh_next_event};
ghost use Rattle.sartrogheo.specs.Writes.{writer_words, writer_in, head_fields, message_to, event_to, sgh_write_event};
ghost use Rattle.sartrogheo.specs.Wholes.{list_end_said, message_words, sgh_read_message};
ghost use Rattle.sartrogheo.specs.Indexes.{index_no, sgh_build_index, sgh_look_up};
ghost use Rattle.sartrogheo.specs.Walks.{item_words, sgh_read_item, walk_no, sgh_walk};
ghost use Rattle.losses.specs.Loss.{loss_told};
ghost use Rattle.losses.specs.Watch.{seen_as};
ghost use Rattle.packed.specs.Layout.{packed_in};
ghost use Rattle.sartrogheo.specs.Losses.{bit_if, cause_bits, loss_words, loss_said_no, loss_said_words, sgh_next_loss, watch_words, watch_in, sight_no, sight_words, sgh_watch_slice, sgh_watch_end};
ghost use Rattle.sartrogheo.specs.Cut.{event_no, event_values, refusal_words, whole_error_words, walk_error_words, look_no, fill_in, opt_writer, RowIsSmall, opt_watch, CanBePacked};

use decoder::{DecodeErr, Decoder, Event};
use encoder::{EncodeError, Encoder, EncoderError, EncoderState};
use index::{FindError, Row};
use losses::{Cause, Look, Loss, LossError, Seen, Watch};
use message::{GetListResponseEnd, MessageBody, MessageStart};
use packed::{BadState, PackError};
use refusals::{BadSpan, Fault, ParseError};
use streaming::{ParseEvent, ReadError, Reader};
use tlf::Ty;
use walk::{Item, WalkError};
use whole::{WholeError, WholeMessage};
use writer::{Head, ListState, ListWriter, WriteError};

// What is no refusal.
pub const GOOD: u32 = 0;

pub const PAYLOAD: u32 = 100;

pub const FINISHED: u32 = 101;

pub const NOT_FOUND: u32 = 102;

pub const LOST: u32 = 103;

// Refusals that several calls have.
const PAYLOAD_TOO_LONG: u32 = 1;

const BAD_STATE: u32 = 4;

const WRONG_BUFFER: u32 = 5;

const INPUT_TOO_LONG: u32 = 9;

const BAD_SPAN: u32 = 16;

const OUTPUT_TOO_SHORT: u32 = 18;

// ---- the number of each refusal

// The C interface: a refusal as the number that a call gives.
trait Numbered: Copy {
    ghost number_of: { Self → ℕ };

    // The number of document 01 or 02.
    fn number(self) -> u32
        ensures { result ≡ number_of self };
}

impl Numbered for DecodeErr {
    ghost number_of = { λ e. answer_no (answer_err e) };

    // What a push or finalize refuses.
    fn number(self) -> u32 {
        match self {
            DecodeErr::DiscardedBytes(_) => 6,
            DecodeErr::InvalidEsc(_, _, _, _) => 7,
            DecodeErr::OutOfMemory => 3,
            DecodeErr::InvalidMessage { .. } => 8,
            DecodeErr::BadState => BAD_STATE,
            DecodeErr::WrongBuffer => WRONG_BUFFER,
        }
    }
}

impl Numbered for PackError {
    ghost number_of = { λ e. answer_no (filled (Err e) []).answer };

    // What packing refuses; 28 bytes are never too short.
    fn number(self) -> u32 {
        match self {
            PackError::BadState => BAD_STATE,
            PackError::WrongBuffer => WRONG_BUFFER,
            PackError::OutputTooShort => OUTPUT_TOO_SHORT,
        }
    }
}

impl Numbered for BadState {
    ghost number_of = { λ _. 4 };

    // Bytes that hold no record.
    fn number(self) -> u32 {
        BAD_STATE
    }
}

impl Numbered for BadSpan {
    ghost number_of = { λ e. answer_no (answer_asked (Err e)) };

    // No payload stands in the buffer.
    fn number(self) -> u32 {
        BAD_SPAN
    }
}

impl Numbered for EncodeError {
    ghost number_of = { λ e. encode_no (encode_answer (Err e)) };

    // What encode refuses.
    fn number(self) -> u32 {
        match self {
            EncodeError::PayloadTooLong => PAYLOAD_TOO_LONG,
            EncodeError::OutOfMemory => 2,
        }
    }
}

impl Numbered for EncoderError {
    ghost number_of = { λ e. next_no (next_answer (Err e)) };

    // What an Encoder refuses.
    fn number(self) -> u32 {
        match self {
            EncoderError::PayloadTooLong => PAYLOAD_TOO_LONG,
            EncoderError::BadState => BAD_STATE,
        }
    }
}

impl Numbered for Fault {
    ghost number_of = { λ f. (fault_of f).number };

    // A refusal at a place.
    fn number(self) -> u32 {
        match self.error {
            ParseError::UnexpectedEOF => 10,
            ParseError::InvalidTlf(_) => 11,
            ParseError::TlfMismatch => 12,
            ParseError::CrcMismatch => 14,
            ParseError::MsgEndMismatch => 15,
            ParseError::UnexpectedVariant => 13,
        }
    }
}

impl Numbered for ReadError {
    ghost number_of = { λ e. reader_no (said (Err e)) };

    // What the event reader refuses.
    fn number(self) -> u32 {
        match self {
            ReadError::Refused(f) => f.number(),
            ReadError::InputTooLong => INPUT_TOO_LONG,
            ReadError::BadState => BAD_STATE,
        }
    }
}

impl Numbered for WriteError {
    ghost number_of = { error_number };

    // What a writer refuses.
    fn number(self) -> u32 {
        match self {
            WriteError::BadState => BAD_STATE,
            WriteError::WrongNumber => 17,
            WriteError::BadSpan => BAD_SPAN,
            WriteError::OutputTooShort => OUTPUT_TOO_SHORT,
        }
    }
}

impl Numbered for WholeError {
    ghost number_of = { λ e. index_no (indexed (Err e)) };

    // What the reader of whole messages and the building of an index refuse.
    fn number(self) -> u32 {
        match self {
            WholeError::Fault(f) => f.number(),
            WholeError::InputTooLong => INPUT_TOO_LONG,
            WholeError::BadState => BAD_STATE,
            WholeError::TooManyEntries => 20,
        }
    }
}

impl Numbered for FindError {
    ghost number_of = { λ e. look_no (found_by (Err e)) };

    // What a lookup refuses.
    fn number(self) -> u32 {
        match self {
            FindError::InputTooLong => INPUT_TOO_LONG,
            FindError::BadSpan => BAD_SPAN,
        }
    }
}

impl Numbered for WalkError {
    ghost number_of = { λ e. walk_no (walked (Err e)) };

    // What the walk refuses.
    fn number(self) -> u32 {
        match self {
            WalkError::Fault(f) => f.number(),
            WalkError::TooDeep { .. } => 19,
            WalkError::InputTooLong => INPUT_TOO_LONG,
        }
    }
}

impl Numbered for LossError {
    ghost number_of = { λ e. loss_said_no (loss_told (Err e)) };

    // What the calls for lost bytes refuse.
    fn number(self) -> u32 {
        match self {
            LossError::BadState => BAD_STATE,
            LossError::WrongBuffer => WRONG_BUFFER,
        }
    }
}

// ---- what a decoder says

// What a refusal says beside its number, in the C interface's four values; those behind it stay.
#[tactic(auto, using(crate::proofs::Told::four_over, crate::proofs::Told::four_taken))]
fn put_refusal(e: DecodeErr, values: &mut [u64; 4])
    ensures { values.new ≡ sets values.old 0 (event_values (Err e) 0) }
{
    match e {
        DecodeErr::DiscardedBytes(n) => values[0] = n as u64,
        DecodeErr::InvalidEsc(a, b, c, d) => {
            *values = [a as u64, b as u64, c as u64, d as u64];
        }
        DecodeErr::InvalidMessage {
            read_crc,
            calculated_crc,
            misaligned,
            num_padding_bytes,
        } => {
            *values = [
                read_crc as u64,
                calculated_crc as u64,
                misaligned as u64,
                num_padding_bytes as u64,
            ];
        }
        _ => {}
    }
}

// How many bytes a payload has: as many as the decoder's fill says, and no more than there are. packed reads it by a private function, which has a `requires`.
#[tactic(auto, unfolding(crate::specs::Cut::fill_in, packed::specs::Layout::number_at_claim))]
fn fill_in(bytes: &[u8; 28], room: usize) -> usize
    ensures { result ≡ fill_in bytes.now room }
{
    let fill = u32::from_le_bytes([bytes[8], bytes[9], bytes[10], bytes[11]]) as usize;
    fill.min(room)
}

// The number of an event, and its values; those behind them stay. A payload is as long as the bytes' fill, in a buffer of `room` bytes.
fn put_event(e: Event, bytes: &[u8; 28], room: usize, values: &mut [u64; 4]) -> u32
    ensures { (result ≡ event_no e) × (values.new ≡ sets values.old 0 (event_values e (fill_in bytes.now room))) }
{
    match e {
        Ok(false) => GOOD,
        Ok(true) => {
            values[0] = fill_in(bytes, room) as u64;
            PAYLOAD
        }
        Err(e) => {
            put_refusal(e, values);
            e.number()
        }
    }
}

// Makes a decoder that has seen nothing, for a buffer of this capacity, in this way of searching.
#[tactic(auto, unfolding(crate::specs::Calls::sgh_decoder_new))]
pub fn sgh_decoder_new(bytes: &mut [u8; 28], capacity: usize, way: u8) -> u32
    ensures { reply result (bytes.new ∷ []) ≡ sgh_decoder_new bytes.old capacity way }
{
    match packed::pack(Decoder::with_way(capacity, way), &mut bytes[..]) {
        Ok(_) => GOOD,
        Err(e) => e.number(),
    }
}

// Pushes any byte.
#[tactic(auto, unfolding(crate::specs::Calls::sgh_push_byte), using(crate::proofs::Told::no_told, crate::proofs::Told::long_told))]
fn push_any(bytes: &mut [u8; 28], buf: &mut [u8], byte: u8, values: &mut [u64; 4]) -> u32
    ensures { reply result (bytes.new ∷ buf.new ∷ values.new ∷ []) ≡ sgh_push_byte bytes.old buf.old byte values.old }
{
    let e = packed::push_packed(&mut bytes[..], buf, byte);
    put_event(e, &*bytes, buf.len(), values)
}

// Pushes a byte. 1b is no plain byte; that it is sent off first leaves push_any two callers, and the short way no stack to make room on.
#[tactic(auto, using(crate::proofs::Told::any_told))]
pub fn sgh_push_byte(bytes: &mut [u8; 28], buf: &mut [u8], byte: u8, values: &mut [u64; 4]) -> u32
    ensures { reply result (bytes.new ∷ buf.new ∷ values.new ∷ []) ≡ sgh_push_byte bytes.old buf.old byte values.old }
{
    if byte == Decoder::ESC {
        return push_any(bytes, buf, byte, values);
    }
    if packed::push_plain(&mut bytes[..], buf, byte) {
        return GOOD;
    }
    push_any(bytes, buf, byte, values)
}

// Pushes bytes until the first event.
#[tactic(auto, unfolding(crate::specs::Calls::sgh_push_slice), using(crate::proofs::Told::no_told, crate::proofs::Told::long_told))]
pub fn sgh_push_slice(
    bytes: &mut [u8; 28],
    buf: &mut [u8],
    chunk: &[u8],
    taken: &mut usize,
    values: &mut [u64; 4],
) -> u32
    ensures { reply result (bytes.new ∷ buf.new ∷ (taken.new ∷ []) ∷ values.new ∷ []) ≡ sgh_push_slice bytes.old buf.old chunk.now values.old }
{
    let t = packed::push_slice_packed(&mut bytes[..], buf, chunk);
    *taken = t.taken;
    put_event(t.event, &*bytes, buf.len(), values)
}

// The length of the payload that stands in the buffer.
#[tactic(auto, unfolding(crate::specs::Calls::sgh_payload))]
pub fn sgh_payload(bytes: &[u8; 28], buf: &[u8], len: &mut usize) -> u32
    ensures { reply result ((len.new ∷ []) ∷ []) ≡ sgh_payload bytes.now buf.now }
{
    *len = packed::payload_packed(&bytes[..], buf).len();
    match packed::ask_payload_packed(&bytes[..], buf) {
        Ok(_) => GOOD,
        Err(e) => e.number(),
    }
}

// Says how many bytes are lost, if any; the decoder begins again.
#[tactic(auto, unfolding(crate::specs::Calls::sgh_finalize), using(crate::proofs::Told::no_told, crate::proofs::Told::none_told))]
pub fn sgh_finalize(bytes: &mut [u8; 28], values: &mut [u64; 4]) -> u32
    ensures { reply result (bytes.new ∷ values.new ∷ []) ≡ sgh_finalize bytes.old values.old }
{
    let e = packed::finalize_packed(&mut bytes[..]);
    put_event(e, &*bytes, 0, values)
}

// Gives the number of bytes that are lost; the decoder begins again.
#[tactic(auto, unfolding(crate::specs::Calls::sgh_reset))]
pub fn sgh_reset(bytes: &mut [u8; 28], values: &mut [u64; 4]) -> u32
    ensures { reply result (bytes.new ∷ values.new ∷ []) ≡ sgh_reset bytes.old values.old }
{
    match packed::reset_packed(&mut bytes[..]) {
        Ok(n) => {
            values[0] = n as u64;
            GOOD
        }
        Err(e) => e.number(),
    }
}

// ---- frames

// The payload's frame goes to `out`.
#[tactic(auto, unfolding(crate::specs::Calls::sgh_encode))]
pub fn sgh_encode(payload: &[u8], out: &mut [u8], len: &mut usize) -> u32
    ensures { reply result (out.new ∷ (len.new ∷ []) ∷ []) ≡ sgh_encode payload.now out.old }
{
    match encoder::encode(payload, out) {
        Ok(n) => {
            *len = n;
            GOOD
        }
        Err(e) => {
            *len = 0;
            e.number()
        }
    }
}

// End's count as one that isn't below 0.
fn end_count(n: i8) -> u64
    ensures { result ≡ end_count n }
{
    u64::try_from(n as i64 + 3).unwrap_or(0)
}

// An Encoder in four numbers, as a host keeps it: the C interface.
fn encoder_words(e: Encoder) -> [u64; 4]
    ensures { result ≡ encoder_words e }
{
    let place = e.place as u64;
    let crc = e.crc as u64;
    match e.state {
        EncoderState::Init(n) => [1, n as u64, place, crc],
        EncoderState::LookingForEscape(n) => [2, n as u64, place, crc],
        EncoderState::HandlingEscape(n) => [3, n as u64, place, crc],
        EncoderState::End(n) => [4, end_count(n), place, crc],
    }
}

// The state of a kind and a count up to 11, numbers of the C interface; a kind that is none stands for a count that is refused.
fn state_of_kind(kind: u64, count: u8) -> EncoderState
    requires { count ≤ 11 }
    ensures { result ≡ state_of_kind kind count }
{
    match kind {
        1 => EncoderState::Init(count),
        2 => EncoderState::LookingForEscape(count),
        3 => EncoderState::HandlingEscape(count),
        4 => EncoderState::End(count as i8 - 3),
        _ => EncoderState::Init(9),
    }
}

// The Encoder of four numbers; numbers that no Encoder has give one that every call refuses, and no None: too long a payload is refused before a bad Encoder, so that `next` is asked in any case.
#[tactic(auto, unfolding(crate::specs::Streams::encoder_in))]
fn encoder_in(words: &[u64; 4]) -> Encoder
    ensures { result ≡ encoder_in words.now }
{
    let [kind, count, place, crc] = *words;
    let place = place as usize;
    let Ok(crc) = u16::try_from(crc) else {
        return Encoder {
            state: EncoderState::Init(9),
            place,
            crc: 0,
        };
    };
    if 11 < count {
        return Encoder {
            state: EncoderState::Init(9),
            place,
            crc,
        };
    }
    Encoder {
        state: state_of_kind(kind, count as u8),
        place,
        crc,
    }
}

// Makes an Encoder that gave nothing yet.
#[tactic(auto, unfolding(crate::specs::Streams::sgh_encoder_new))]
pub fn sgh_encoder_new(encoder: &mut [u64; 4])
    ensures { encoder.new ≡ sgh_encoder_new }
{
    *encoder = encoder_words(Encoder::new());
}

// The frame's next byte.
#[tactic(auto, unfolding(crate::specs::Streams::sgh_encoder_next))]
pub fn sgh_encoder_next(encoder: &mut [u64; 4], payload: &[u8], byte: &mut u8) -> u32
    ensures { reply result (encoder.new ∷ (byte.new ∷ []) ∷ []) ≡ sgh_encoder_next encoder.old payload.now byte.old }
{
    let g = encoder_in(&*encoder).next(payload);
    match g.answer {
        Ok(Some(b)) => {
            *encoder = encoder_words(g.encoder);
            *byte = b;
            GOOD
        }
        Ok(None) => FINISHED,
        Err(e) => e.number(),
    }
}

// The check value of the bytes.
pub fn sgh_crc(bytes: &[u8]) -> u16
    ensures { result ≡ crc_of bytes.now }
{
    crc_x25::checksum(bytes)
}

// ---- messages

// The next event of a payload, and the reader behind it, in three numbers: the C interface. An event and its absence are no refusals.
#[tactic(auto, unfolding(crate::specs::Streams::sgh_next_event))]
pub fn sgh_next_event(input: &[u8], reader: &mut [u64; 3], event: &mut [u64; 24]) -> u32
    ensures { reply result (reader.new ∷ event.new ∷ []) ≡ sgh_next_event input.now reader.old }
{
    let held = Reader {
        place: reader[0] as usize,
        start: reader[1] as usize,
        pending: reader[2],
    };
    let n = held.parse_next(input);
    *reader = [
        n.reader.place as u64,
        n.reader.start as u64,
        n.reader.pending,
    ];
    *event = words::event_words(n.answer);
    match n.answer {
        Ok(Some(_)) => GOOD,
        Ok(None) => FINISHED,
        Err(e) => e.number(),
    }
}

// ---- messages that are written

// The writer of four numbers; numbers that no writer has are none.
#[tactic(auto, unfolding(crate::specs::Writes::writer_in))]
fn writer_in(words: &[u64; 4]) -> Option<ListWriter>
    ensures { opt_writer result ≡ writer_in words.now }
{
    let [place, kind, left, crc] = *words;
    let state = match (kind, left, crc) {
        (1, _, _) => ListState::Entries {
            left: u32::try_from(left).ok()?,
            crc: u16::try_from(crc).ok()?,
        },
        (0, 0, 0) => ListState::Ended,
        _ => return None,
    };
    Some(ListWriter {
        place: place as usize,
        state,
    })
}

// A writer in four numbers, as a host keeps it: the C interface.
fn writer_words(w: ListWriter) -> [u64; 4]
    ensures { result ≡ writer_words w }
{
    match w.state {
        ListState::Entries { left, crc } => [w.place as u64, 1, left as u64, crc as u64],
        ListState::Ended => [w.place as u64, 0, 0, 0],
    }
}

// A message's start, which of an open and a close is all of it: behind a whole message the writer is ended.
fn message_to(
    out: &mut [u8],
    at: usize,
    strings: &[u8],
    m: MessageStart,
) -> Result<ListWriter, WriteError>
    ensures { after_write (list_written result) out.new ≡ message_to out.old at strings.now (head_fields (message_start m)) (message_body m.message_body) }
{
    let head = Head {
        transaction_id: m.transaction_id,
        group_no: m.group_no,
        abort_on_error: m.abort_on_error,
    };
    let place = match m.message_body {
        MessageBody::OpenResponse(b) => writer::write_open(out, at, strings, head, b)?,
        MessageBody::CloseResponse(b) => writer::write_close(out, at, strings, head, b)?,
        MessageBody::GetListResponse(b) => {
            return writer::write_list_start(out, at, strings, head, b);
        }
    };
    Ok(ListWriter {
        place,
        state: ListState::Ended,
    })
}

// An event by the writer's call for it.
fn event_to(
    out: &mut [u8],
    w: ListWriter,
    strings: &[u8],
    e: ParseEvent,
) -> Result<ListWriter, WriteError>
    ensures { after_write (list_written result) out.new ≡ event_to out.old w strings.now (parse_event e) }
{
    match e {
        ParseEvent::MessageStart(m) => message_to(out, w.place, strings, m),
        ParseEvent::GetListResponseEnd(x) => writer::write_list_end(out, w, strings, x),
        ParseEvent::ListEntry(x) => writer::write_list_entry(out, w, strings, x),
    }
}

// Writes an event, whose strings are parts of `strings`, where the writer is.
#[tactic(auto, unfolding(crate::specs::Writes::sgh_write_event))]
pub fn sgh_write_event(
    out: &mut [u8],
    strings: &[u8],
    event: &[u64; 24],
    writer: &mut [u64; 4],
) -> u32
    ensures { reply result (out.new ∷ writer.new ∷ []) ≡ sgh_write_event out.old strings.now event.now writer.old }
{
    let Some(e) = words::event_of(event) else {
        return BAD_STATE;
    };
    let Some(w) = writer_in(&*writer) else {
        return BAD_STATE;
    };
    match event_to(out, w, strings, e) {
        Ok(v) => {
            *writer = writer_words(v);
            GOOD
        }
        Err(e) => e.number(),
    }
}

// ---- whole messages

// A list's end as an event; where a message has none, zeros.
fn last_words(end: Option<GetListResponseEnd>) -> [u64; 24]
    ensures { result ≡ event_words (list_end_said (opt_list_end end)) }
{
    words::event_words(Ok(end.map(|e| ParseEvent::GetListResponseEnd(e))))
}

// A message's 50 words: its start, a list's end, how many rows stand in the table, the place behind it. Flat, as the C interface has them.
fn message_words(m: WholeMessage) -> [u64; 50]
    ensures { result ≡ message_words (whole_read (Ok m)) }
{
    let mut all = [0; 50];
    let start = ParseEvent::MessageStart(m.start);
    all[..24].copy_from_slice(&words::event_words(Ok(Some(start))));
    all[24..48].copy_from_slice(&last_words(m.end));
    all[48] = m.rows as u64;
    all[49] = m.next as u64;
    all
}

// A refusal at a place: number, kind and place, which the event reader's words have too.
#[tactic(auto, unfolding(words::specs::Words::with_zeros))]
fn fault_words(f: Fault) -> [u64; 3]
    ensures { result ≡ refusal_words (fault_of f) }
{
    let w = words::event_words(Err(ReadError::Refused(f)));
    [w[1], w[2], w[3]]
}

// What has no place has no kind either.
fn whole_error_words(e: WholeError) -> [u64; 3]
    ensures { result ≡ whole_error_words e }
{
    match e {
        WholeError::Fault(f) => fault_words(f),
        _ => [e.number() as u64, 0, 0],
    }
}

// Why there is no message, as the event reader gives it, and zeros. That reader never says 20.
#[tactic(auto, unfolding(crate::specs::Wholes::message_words, words::specs::Words::with_zeros))]
fn no_message(e: WholeError) -> [u64; 50]
    ensures { result ≡ message_words (whole_read (Err e)) }
{
    let head = match e {
        WholeError::Fault(_) => 4,
        _ => 5,
    };
    let [number, kind, place] = whole_error_words(e);
    let mut all = [0; 50];
    all[..4].copy_from_slice(&[head, number, kind, place]);
    all
}

// The message at a place, whatever follows it, and the rows of its entries.
#[tactic(auto, unfolding(crate::specs::Wholes::sgh_read_message))]
pub fn sgh_read_message(input: &[u8], at: usize, table: &mut [u32], message: &mut [u64; 50]) -> u32
    ensures { reply result (table.new ∷ message.new ∷ []) ≡ sgh_read_message input.now at table.old }
{
    match whole::read_message(input, at, table) {
        Ok(m) => {
            *message = message_words(m);
            GOOD
        }
        Err(e) => {
            *message = no_message(e);
            e.number()
        }
    }
}

// ---- an index

// The rows of the message at a place, sorted in the table. Five words: rows and next place; number, kind and place of a refusal.
#[tactic(auto, unfolding(crate::specs::Indexes::sgh_build_index))]
pub fn sgh_build_index(input: &[u8], at: usize, table: &mut [u32], index: &mut [u64; 5]) -> u32
    ensures { reply result (table.new ∷ index.new ∷ []) ≡ sgh_build_index input.now at table.old }
{
    match index::build_index(input, at, table) {
        Ok(x) => {
            *index = [x.rows as u64, x.next as u64, 0, 0, 0];
            GOOD
        }
        Err(e) => {
            let [number, kind, place] = whole_error_words(e);
            *index = [0, 0, number, kind, place];
            e.number()
        }
    }
}

// A row as it stands in a table.
#[tactic(auto, unfolding(index::specs::Answers::entry_row, whole::specs::Whole::flat))]
fn row_numbers(r: Row) -> [u32; 4]
    requires { RowIsSmall (entry_row r) }
    ensures { result ≡ flat (entry_row r ∷ []) }
{
    [
        r.name.start as u32,
        r.name.len as u32,
        r.entry.start as u32,
        r.entry.len as u32,
    ]
}

// The first row with exactly that name, in any table; else the row stays as it was.
#[tactic(auto, unfolding(crate::specs::Indexes::sgh_look_up), using(crate::proofs::Indexes::row_small))]
pub fn sgh_look_up(input: &[u8], table: &[u32], name: &[u8], row: &mut [u32; 4]) -> u32
    ensures { reply result (row.new ∷ []) ≡ sgh_look_up input.now table.now name.now row.old }
{
    match index::look_up(input, table, name) {
        Ok(Some(r)) => {
            *row = row_numbers(r);
            GOOD
        }
        Ok(None) => NOT_FOUND,
        Err(e) => e.number(),
    }
}

// ---- any content

// The number of a type, as it stands in an element's first byte.
fn type_number(ty: Ty) -> u64
    ensures { result ≡ ty_number ty }
{
    ty as u64
}

// The nine words of what begins at a place: kind, type, content, count and next place. Flat, as the C interface has them.
fn item_words(x: Item, next: usize) -> [u64; 9]
    ensures { result ≡ item_words (item_read (Ok (x, next))) }
{
    let next = next as u64;
    match x {
        Item::EndMark => [1, 0, 0, 0, 0, next, 0, 0, 0],
        Item::Leaf { ty, content } => [
            2,
            type_number(ty),
            content.start as u64,
            content.len as u64,
            0,
            next,
            0,
            0,
            0,
        ],
        Item::List { count } => [3, 0, 0, 0, count as u64, next, 0, 0, 0],
    }
}

// What begins at a place, whatever follows it; number, kind and place of a refusal.
#[tactic(auto, unfolding(crate::specs::Walks::sgh_read_item))]
pub fn sgh_read_item(input: &[u8], at: usize, item: &mut [u64; 9]) -> u32
    ensures { reply result (item.new ∷ []) ≡ sgh_read_item input.now at }
{
    if refusals::LIMIT < input.len() {
        *item = [0, 0, 0, 0, 0, 0, 9, 0, 0];
        return INPUT_TOO_LONG;
    }
    match walk::parse_item(input, at) {
        Ok((x, next)) => {
            *item = item_words(x, next);
            GOOD
        }
        Err(f) => {
            let [number, kind, place] = fault_words(f);
            *item = [0, 0, 0, 0, 0, 0, number, kind, place];
            f.number()
        }
    }
}

// What is too deep has a place, and no kind.
fn walk_error_words(e: WalkError) -> [u64; 3]
    ensures { result ≡ walk_error_words e }
{
    match e {
        WalkError::Fault(f) => fault_words(f),
        WalkError::TooDeep { place } => [19, 0, place as u64],
        WalkError::InputTooLong => [9, 0, 0],
    }
}

// How many bytes the whole element at a place takes, and how many leaves it has; number, kind and place of a refusal.
#[tactic(auto, unfolding(crate::specs::Walks::sgh_walk))]
pub fn sgh_walk(input: &[u8], at: usize, element: &mut [u64; 5]) -> u32
    ensures { reply result (element.new ∷ []) ≡ sgh_walk input.now at }
{
    match walk::walk(input, at) {
        Ok(x) => {
            *element = [x.bytes as u64, x.leaves as u64, 0, 0, 0];
            GOOD
        }
        Err(e) => {
            let [number, kind, place] = walk_error_words(e);
            *element = [0, 0, number, kind, place];
            e.number()
        }
    }
}

// ---- lost bytes

// A cause's bit, where it is named. That it is at most the bit is what lets cause_bits add without a test.
fn bit_if(b: bool, bit: u64) -> u64
    ensures { (result ≡ bit_if b bit) × (result ≤ bit) }
{
    if b { bit } else { 0 }
}

// The causes as bits.
fn cause_bits(c: Cause) -> u64
    ensures { result ≡ cause_bits c }
{
    match c {
        Cause::Noise => 1,
        Cause::Unfinished => 2,
        Cause::Hidden => 4,
        Cause::Cut => 8,
        Cause::UnknownEscape => 16,
        Cause::NoRoom => 32,
        Cause::Invalid {
            wrong_crc,
            misaligned,
            wrong_pads,
        } => {
            let crc = bit_if(wrong_crc, 64);
            let end = bit_if(misaligned, 128);
            let pads = bit_if(wrong_pads, 256);
            crc + (end + pads)
        }
    }
}

// A loss in three words: the C interface.
fn loss_words(l: Loss) -> [u64; 3]
    ensures { result ≡ loss_words l }
{
    [cause_bits(l.cause), l.first as u64, l.last as u64]
}

// What is told of a loss: its three words, zeros where nothing is lost, and the call's number.
fn put_told(told: Result<Option<Loss>, LossError>, loss: &mut [u64; 3]) -> u32
    ensures { (result ≡ loss_said_no (loss_told told)) × (loss.new ≡ loss_said_words (loss_told told)) }
{
    *loss = [0; 3];
    match told {
        Ok(Some(l)) => {
            *loss = loss_words(l);
            LOST
        }
        Ok(None) => FINISHED,
        Err(e) => e.number(),
    }
}

// What is lost next behind the recording's first `from` bytes, and why.
#[tactic(auto, unfolding(crate::specs::Losses::sgh_next_loss))]
pub fn sgh_next_loss(
    recording: &[u8],
    way: u8,
    buf: &mut [u8],
    from: usize,
    loss: &mut [u64; 3],
) -> u32
    ensures { reply result (buf.new ∷ loss.new ∷ []) ≡ sgh_next_loss recording.now way buf.old from }
{
    put_told(losses::next_loss(recording, way, buf, from), loss)
}

// The watch of a decoder's bytes and four numbers. Bytes that hold no decoder, and a count that no byte holds, are none.
#[tactic(auto, unfolding(crate::specs::Losses::watch_in))]
fn watch_in(bytes: &[u8; 28], watch: &[u64; 4]) -> Option<Watch>
    ensures { opt_watch result ≡ watch_in bytes.now watch.now }
{
    let [pushed, begun, matched, start_end] = *watch;
    Some(Watch {
        decoder: packed::unpack(&bytes[..]).ok()?,
        pushed: pushed as usize,
        begun: begun as usize,
        look: Look {
            matched: u8::try_from(matched).ok()?,
            start_end: start_end as usize,
        },
    })
}

// The numbers of a watch beside its decoder's bytes: the C interface.
fn watch_words(w: Watch) -> [u64; 4]
    ensures { result ≡ watch_words w }
{
    [
        w.pushed as u64,
        w.begun as u64,
        w.look.matched as u64,
        w.look.start_end as u64,
    ]
}

// The decoder that a watch leaves goes back to its bytes, and the watch to its numbers.
#[tactic(auto, using(crate::proofs::Losses::packed_told))]
fn put_watch(w: Watch, bytes: &mut [u8; 28], watch: &mut [u64; 4])
    requires { CanBePacked w.decoder bytes.old }
    ensures { (bytes.new ≡ packed_in w.decoder bytes.old) × (watch.new ≡ watch_words w) }
{
    let _ = packed::pack(w.decoder, &mut bytes[..]);
    *watch = watch_words(w);
}

// What a slice brings: the call's number, and three words; of a payload those of its frame, without a cause.
fn put_seen(seen: Result<Option<Seen>, LossError>, loss: &mut [u64; 3]) -> u32
    ensures { (result ≡ sight_no (seen_as seen)) × (loss.new ≡ sight_words (seen_as seen)) }
{
    *loss = [0; 3];
    match seen {
        Ok(None) => GOOD,
        Ok(Some(Seen::Kept { first, last })) => {
            *loss = [0, first as u64, last as u64];
            PAYLOAD
        }
        Ok(Some(Seen::Lost(l))) => {
            *loss = loss_words(l);
            LOST
        }
        Err(e) => e.number(),
    }
}

// Pushes bytes up to and with the first that brings a payload or a loss.
#[tactic(auto, unfolding(crate::specs::Losses::sgh_watch_slice))]
pub fn sgh_watch_slice(
    bytes: &mut [u8; 28],
    watch: &mut [u64; 4],
    buf: &mut [u8],
    chunk: &[u8],
    taken: &mut usize,
    loss: &mut [u64; 3],
) -> u32
    ensures { reply result (bytes.new ∷ watch.new ∷ buf.new ∷ (taken.new ∷ []) ∷ loss.new ∷ []) ≡ sgh_watch_slice bytes.old watch.old buf.old chunk.now }
{
    let Some(w) = watch_in(&*bytes, &*watch) else {
        *taken = 0;
        *loss = [0; 3];
        return BAD_STATE;
    };
    let r = losses::watch_slice(w, buf, chunk);
    put_watch(r.watch, bytes, watch);
    *taken = r.taken;
    put_seen(r.seen, loss)
}

// The recording ends: what is left is lost.
#[tactic(auto, unfolding(crate::specs::Losses::sgh_watch_end))]
pub fn sgh_watch_end(bytes: &mut [u8; 28], watch: &mut [u64; 4], loss: &mut [u64; 3]) -> u32
    ensures { reply result (bytes.new ∷ watch.new ∷ loss.new ∷ []) ≡ sgh_watch_end bytes.old watch.old }
{
    let Some(w) = watch_in(&*bytes, &*watch) else {
        *loss = [0; 3];
        return BAD_STATE;
    };
    let r = losses::watch_end(w);
    put_watch(r.watch, bytes, watch);
    put_told(r.told, loss)
}
