// An event of the message reader in 24 plain numbers and back, for a host that takes no enum: word 0 is its kind, and its fields stand behind it in their order.
// The kinds, and where each field stands, are the C interface's: include/sartrogheo.h.
#![tactic(auto)]

ghost use Rattle.std.specs.Prelude.{◌≡◌, ◌+◌, ◌≤◌, ℕ, ℤ, List};
ghost use Rattle.std.specs.Int.{cast_unsigned, w64};
ghost use Rattle.std.proofs.Math.Option.{Option};
ghost use Rattle.refusals.specs.Answers.{as_it_is, opt_of, kind_of, fault_of};
ghost use Rattle.refusals.specs.declared.Span.{Span};
ghost use Rattle.value.specs.Values as Values;
ghost use Rattle.value.specs.Answers.{seconds, status, value};
ghost use Rattle.common.specs.Answers.{open_response, close_response, list_entry};
ghost use Rattle.message.specs.Answers.{list_start, list_end, message_body, message_start};
ghost use Rattle.message.specs.Messages.{open_body, close_body, list_body};
ghost use Rattle.streaming.specs.Answers.{said, parse_event};
ghost use Rattle.streaming.specs.Next.{event, failed};
ghost use Rattle.words.specs.Words.{number_word, signed_word, span_words, status_words, field_words, value_words, start_words, end_words, entry_words, with_zeros, event_words};
ghost use Rattle.words.specs.Back.{number_back, signed_back, span_in, status_back, field_in, signed_value_back, unsigned_value_back, value_back, open_back, close_back, list_back, body_back, start_back, end_back, entry_back, event_back, event_of};
ghost use Rattle.words.specs.Answers.{opt_event};
ghost use Rattle.words.specs.Cut.{put_at, up_to_body, start_of};

use common::{CloseResponse, ListEntry, OpenResponse};
use message::{GetListResponseEnd, GetListResponseStart, MessageBody, MessageStart};
use refusals::{Fault, ParseError, Span, TlfParseError};
use streaming::{Answer, ParseEvent, ReadError};
use value::{ListType, Status, Time, Value};

// ---- fields

// What stands in a fixed number of an event's words, from some place on.
trait Field: Copy {
    // What it says in document 01's words, the words that it takes, and what is read from words again.
    ghost Meaning: { Type 0 };

    ghost means: { Self → Meaning };

    ghost words_of: { Meaning → List ℕ };

    ghost read_back: { List ℕ → ℕ → Meaning };

    // How many words it takes.
    ghost COUNT: { ℕ };

    const COUNT: usize;

    // Its words, at `at`.
    fn put_words(self, words: &mut [u64; 24], at: usize)
        requires { at + COUNT ≤ 24 }
        ensures { words.new ≡ put_at words.old at (words_of (means self)) };

    // What the words at `at` are read as, whatever they are.
    fn back(words: &[u64; 24], at: usize) -> Self
        requires { at + COUNT ≤ 24 }
        ensures { means result ≡ read_back words.now at };
}

impl Field for u8 {
    ghost Meaning = { ℕ };

    ghost means = { as_it_is };

    ghost words_of = { number_word };

    ghost read_back = { number_back 1 };

    ghost COUNT = { 1 };

    const COUNT: usize = 1;

    // A number.
    #[tactic(auto, using(crate::proofs::Puts::one_over))]
    fn put_words(self, words: &mut [u64; 24], at: usize) {
        words[at] = u64::from(self);
    }

    // A number that its type has no room for is read as 0, whose words are other ones.
    fn back(words: &[u64; 24], at: usize) -> u8 {
        u8::try_from(words[at]).unwrap_or(0)
    }
}

// An impl a width: one over From and TryFrom would overlap those of Span, Status and Value.
impl Field for u32 {
    ghost Meaning = { ℕ };

    ghost means = { as_it_is };

    ghost words_of = { number_word };

    ghost read_back = { number_back 4 };

    ghost COUNT = { 1 };

    const COUNT: usize = 1;

    // A number of 32 bits.
    #[tactic(auto, using(crate::proofs::Puts::one_over))]
    fn put_words(self, words: &mut [u64; 24], at: usize) {
        words[at] = u64::from(self);
    }

    // As a u8 is.
    fn back(words: &[u64; 24], at: usize) -> u32 {
        u32::try_from(words[at]).unwrap_or(0)
    }
}

impl Field for Time {
    ghost Meaning = { ℕ };

    ghost means = { seconds };

    ghost words_of = { number_word };

    ghost read_back = { number_back 4 };

    ghost COUNT = { 1 };

    const COUNT: usize = 1;

    // A time, by its seconds.
    fn put_words(self, words: &mut [u64; 24], at: usize) {
        self.sec_index.put_words(words, at);
    }

    // The same.
    fn back(words: &[u64; 24], at: usize) -> Time {
        Time {
            sec_index: u32::back(words, at),
        }
    }
}

impl Field for i8 {
    ghost Meaning = { ℤ };

    ghost means = { as_it_is };

    ghost words_of = { signed_word };

    ghost read_back = { signed_back 1 };

    ghost COUNT = { 1 };

    const COUNT: usize = 1;

    // A signed number goes through 64 bits, so that two's complement is made at one width.
    #[tactic(auto, using(crate::proofs::Puts::one_over))]
    fn put_words(self, words: &mut [u64; 24], at: usize) {
        words[at] = i64::from(self).cast_unsigned();
    }

    // The same.
    fn back(words: &[u64; 24], at: usize) -> i8 {
        i8::try_from(words[at].cast_signed()).unwrap_or(0)
    }
}

impl Field for Span {
    ghost Meaning = { Span };

    ghost means = { as_it_is };

    ghost words_of = { span_words };

    ghost read_back = { span_in };

    ghost COUNT = { 2 };

    const COUNT: usize = 2;

    // A string.
    #[tactic(auto, using(crate::proofs::Puts::part_over))]
    fn put_words(self, words: &mut [u64; 24], at: usize) {
        words[at..at + 2].copy_from_slice(&[self.start as u64, self.len as u64]);
    }

    // The same.
    fn back(words: &[u64; 24], at: usize) -> Span {
        Span {
            start: words[at] as usize,
            len: words[at + 1] as usize,
        }
    }
}

impl Field for Status {
    ghost Meaning = { Values.Status };

    ghost means = { status };

    ghost words_of = { status_words };

    ghost read_back = { status_back };

    ghost COUNT = { 2 };

    const COUNT: usize = 2;

    // A status: its width and the number.
    #[tactic(auto, using(crate::proofs::Puts::part_over))]
    fn put_words(self, words: &mut [u64; 24], at: usize) {
        words[at..at + 2].copy_from_slice(&status_words(self));
    }

    // A width that is none is read as the next one, or as eight bytes.
    fn back(words: &[u64; 24], at: usize) -> Status {
        let n = words[at + 1];
        match words[at] {
            0 | 1 => Status::Status8(u8::try_from(n).unwrap_or(0)),
            2 => Status::Status16(u16::try_from(n).unwrap_or(0)),
            3 | 4 => Status::Status32(u32::try_from(n).unwrap_or(0)),
            _ => Status::Status64(n),
        }
    }
}

impl Field for Value {
    ghost Meaning = { Values.Value Span };

    ghost means = { value };

    ghost words_of = { value_words };

    ghost read_back = { value_back };

    ghost COUNT = { 5 };

    const COUNT: usize = 5;

    // A value: what its kind doesn't use is 0.
    #[tactic(auto, using(crate::proofs::Puts::part_over))]
    fn put_words(self, words: &mut [u64; 24], at: usize) {
        words[at..at + 5].copy_from_slice(&value_words(self));
    }

    // A value of each kind.
    fn back(words: &[u64; 24], at: usize) -> Value {
        match words[at] {
            1 => Value::Bool(words[at + 2] == 1),
            2 => Value::Bytes(Span::back(words, at + 3)),
            3 => signed_value_back(words[at + 1], words[at + 2].cast_signed()),
            4 => unsigned_value_back(words[at + 1], words[at + 2]),
            _ => Value::List(ListType {
                time: Time::back(words, at + 2),
            }),
        }
    }
}

// An optional field: 1 and its words; absent, 0 and as many zeros.
#[tactic(auto, using(crate::proofs::Puts::one_then_over, crate::proofs::Puts::part_over))]
fn put_optional<T: Field>(x: Option<T>, words: &mut [u64; 24], at: usize)
    requires { at + 1 + T.COUNT ≤ 24 }
    ensures { words.new ≡ put_at words.old at (field_words T.COUNT T.words_of (opt_of T.means x)) }
{
    match x {
        Some(x) => {
            words[at] = 1;
            x.put_words(words, at + 1);
        }
        None => words[at..at + 1 + T::COUNT].fill(0),
    }
}

// What the words at `at` are read as, if a field is there.
fn field_in<T: Field>(words: &[u64; 24], at: usize) -> Option<T>
    requires { at + 1 + T.COUNT ≤ 24 }
    ensures { opt_of T.means result ≡ field_in T.read_back words.now at }
{
    (words[at] == 1).then(|| T::back(words, at + 1))
}

// A status's two words.
fn status_words(x: Status) -> [u64; 2]
    ensures { result ≡ status_words (status x) }
{
    match x {
        Status::Status8(n) => [1, u64::from(n)],
        Status::Status16(n) => [2, u64::from(n)],
        Status::Status32(n) => [4, u64::from(n)],
        Status::Status64(n) => [8, n],
    }
}

// A value's five words; a number is put down at 64 bits beside its width.
fn value_words(x: Value) -> [u64; 5]
    ensures { result ≡ value_words (value x) }
{
    match x {
        Value::Bool(b) => [1, 0, u64::from(b), 0, 0],
        Value::Bytes(s) => [2, 0, 0, s.start as u64, s.len as u64],
        Value::I8(z) => [3, 1, i64::from(z).cast_unsigned(), 0, 0],
        Value::I16(z) => [3, 2, i64::from(z).cast_unsigned(), 0, 0],
        Value::I32(z) => [3, 4, i64::from(z).cast_unsigned(), 0, 0],
        Value::I64(z) => [3, 8, z.cast_unsigned(), 0, 0],
        Value::U8(n) => [4, 1, u64::from(n), 0, 0],
        Value::U16(n) => [4, 2, u64::from(n), 0, 0],
        Value::U32(n) => [4, 4, u64::from(n), 0, 0],
        Value::U64(n) => [4, 8, n, 0, 0],
        Value::List(l) => [5, 0, u64::from(l.time.sec_index), 0, 0],
    }
}

// A signed number at its width. No twin of the unsigned one: each arm makes another variant.
fn signed_value_back(width: u64, z: i64) -> Value
    ensures { value result ≡ signed_value_back width (cast_unsigned w64 z) }
{
    match width {
        0 | 1 => Value::I8(i8::try_from(z).unwrap_or(0)),
        2 => Value::I16(i16::try_from(z).unwrap_or(0)),
        3 | 4 => Value::I32(i32::try_from(z).unwrap_or(0)),
        _ => Value::I64(z),
    }
}

// An unsigned number at its width.
fn unsigned_value_back(width: u64, n: u64) -> Value
    ensures { value result ≡ unsigned_value_back width n }
{
    match width {
        0 | 1 => Value::U8(u8::try_from(n).unwrap_or(0)),
        2 => Value::U16(u16::try_from(n).unwrap_or(0)),
        3 | 4 => Value::U32(u32::try_from(n).unwrap_or(0)),
        _ => Value::U64(n),
    }
}

// ---- events

// A message's start up to its body, whose kind is word 5.
#[tactic(auto, unfolding(crate::specs::Words::with_zeros, crate::specs::Cut::put_at))]
fn head_words(m: MessageStart, kind: u64) -> [u64; 24]
    ensures { result ≡ with_zeros 24 (up_to_body m.transaction_id m.group_no m.abort_on_error kind) }
{
    let mut words = [0; 24];
    words[0] = 1;
    m.transaction_id.put_words(&mut words, 1);
    m.group_no.put_words(&mut words, 3);
    m.abort_on_error.put_words(&mut words, 4);
    words[5] = kind;
    words
}

// One with an open body.
#[tactic(auto, unfolding(crate::specs::Words::with_zeros, crate::specs::Cut::put_at), using(crate::proofs::Parts::span_words_lem, crate::proofs::Parts::number_words))]
fn open_words(m: MessageStart, b: OpenResponse) -> [u64; 24]
    ensures { result ≡ start_of m.transaction_id m.group_no m.abort_on_error (open_body (open_response b)) }
{
    let mut words = head_words(m, 1);
    put_optional(b.codepage, &mut words, 6);
    put_optional(b.client_id, &mut words, 9);
    b.req_file_id.put_words(&mut words, 12);
    b.server_id.put_words(&mut words, 14);
    put_optional(b.ref_time, &mut words, 16);
    put_optional(b.sml_version, &mut words, 18);
    words
}

// One with a close body.
#[tactic(auto, unfolding(crate::specs::Words::with_zeros, crate::specs::Cut::put_at), using(crate::proofs::Parts::span_words_lem))]
fn close_words(m: MessageStart, b: CloseResponse) -> [u64; 24]
    ensures { result ≡ start_of m.transaction_id m.group_no m.abort_on_error (close_body (close_response b)) }
{
    let mut words = head_words(m, 2);
    put_optional(b.global_signature, &mut words, 6);
    words
}

// One with a list's head.
#[tactic(auto, unfolding(crate::specs::Words::with_zeros, crate::specs::Cut::put_at), using(crate::proofs::Parts::span_words_lem, crate::proofs::Parts::number_words))]
fn list_words(m: MessageStart, b: GetListResponseStart) -> [u64; 24]
    ensures { result ≡ start_of m.transaction_id m.group_no m.abort_on_error (list_body (list_start b)) }
{
    let mut words = head_words(m, 3);
    put_optional(b.client_id, &mut words, 6);
    b.server_id.put_words(&mut words, 9);
    put_optional(b.list_name, &mut words, 11);
    put_optional(b.act_sensor_time, &mut words, 14);
    b.num_vals.put_words(&mut words, 16);
    words
}

// A message's start.
fn start_words(m: MessageStart) -> [u64; 24]
    ensures { result ≡ with_zeros 24 (start_words (message_start m)) }
{
    match m.message_body {
        MessageBody::OpenResponse(b) => open_words(m, b),
        MessageBody::CloseResponse(b) => close_words(m, b),
        MessageBody::GetListResponse(b) => list_words(m, b),
    }
}

// A list's end.
#[tactic(auto, unfolding(crate::specs::Words::with_zeros, crate::specs::Cut::put_at), using(crate::proofs::Parts::span_words_lem, crate::proofs::Parts::number_words))]
fn end_words(e: GetListResponseEnd) -> [u64; 24]
    ensures { result ≡ with_zeros 24 (end_words (list_end e)) }
{
    let mut words = [0; 24];
    words[0] = 2;
    put_optional(e.list_signature, &mut words, 1);
    put_optional(e.act_gateway_time, &mut words, 4);
    words
}

// A list entry.
fn entry_words(e: ListEntry) -> [u64; 24]
    ensures { result ≡ with_zeros 24 (entry_words (list_entry e)) }
{
    let mut words = [0; 24];
    words[0] = 3;
    e.obj_name.put_words(&mut words, 1);
    put_optional(e.status, &mut words, 3);
    put_optional(e.val_time, &mut words, 6);
    put_optional(e.unit, &mut words, 8);
    put_optional(e.scaler, &mut words, 10);
    e.value.put_words(&mut words, 12);
    put_optional(e.value_signature, &mut words, 17);
    words
}

// ---- refusals

// The five kinds of 11, by the numbers that the C interface has.
fn kind_of(e: TlfParseError) -> u64
    ensures { result ≡ kind_of e }
{
    match e {
        TlfParseError::TlfLengthOverflow => 1,
        TlfParseError::TlfReserved => 2,
        TlfParseError::TlfLengthUnderflow => 3,
        TlfParseError::TlfNextByteTypeMismatch => 4,
        TlfParseError::TlfInvalidTy => 5,
    }
}

// Four words and zeros: a refusal is word 0, number, kind and place.
#[tactic(auto, unfolding(crate::specs::Words::with_zeros))]
fn four_words(first: [u64; 4]) -> [u64; 24]
    ensures { result ≡ with_zeros 24 first }
{
    let mut words = [0; 24];
    words[..4].copy_from_slice(&first);
    words
}

// A refusal at a place, by document 01's number.
fn fault_words(f: Fault) -> [u64; 24]
    ensures { result ≡ event_words (failed (fault_of f)) }
{
    let (number, kind) = match f.error {
        ParseError::UnexpectedEOF => (10, 0),
        ParseError::InvalidTlf(k) => (11, kind_of(k)),
        ParseError::TlfMismatch => (12, 0),
        ParseError::CrcMismatch => (14, 0),
        ParseError::MsgEndMismatch => (15, 0),
        ParseError::UnexpectedVariant => (13, 0),
    };
    four_words([4, number, kind, f.place as u64])
}

// ---- what a call of the reader says

// An event.
fn parsed_words(e: ParseEvent) -> [u64; 24]
    ensures { result ≡ event_words (event (parse_event e)) }
{
    match e {
        ParseEvent::MessageStart(m) => start_words(m),
        ParseEvent::GetListResponseEnd(x) => end_words(x),
        ParseEvent::ListEntry(x) => entry_words(x),
    }
}

// The answer of `streaming::Reader::parse_next` in 24 numbers.
#[tactic(auto, unfolding(crate::specs::Words::with_zeros))]
pub fn event_words(answer: Answer) -> [u64; 24]
    ensures { result ≡ event_words (said answer) }
{
    match answer {
        Ok(Some(e)) => parsed_words(e),
        Ok(None) => [0; 24],
        Err(ReadError::Refused(f)) => fault_words(f),
        Err(ReadError::InputTooLong) => four_words([5, 9, 0, 0]),
        Err(ReadError::BadState) => four_words([5, 4, 0, 0]),
    }
}

// ---- the way back: events

// An open body.
fn open_back(words: &[u64; 24]) -> OpenResponse
    ensures { open_response result ≡ open_back words.now }
{
    OpenResponse {
        codepage: field_in(words, 6),
        client_id: field_in(words, 9),
        req_file_id: Span::back(words, 12),
        server_id: Span::back(words, 14),
        ref_time: field_in(words, 16),
        sml_version: field_in(words, 18),
    }
}

// A close body.
fn close_back(words: &[u64; 24]) -> CloseResponse
    ensures { close_response result ≡ close_back words.now }
{
    CloseResponse {
        global_signature: field_in(words, 6),
    }
}

// A list's head.
fn list_back(words: &[u64; 24]) -> GetListResponseStart
    ensures { list_start result ≡ list_back words.now }
{
    GetListResponseStart {
        client_id: field_in(words, 6),
        server_id: Span::back(words, 9),
        list_name: field_in(words, 11),
        act_sensor_time: field_in(words, 14),
        num_vals: u32::back(words, 16),
    }
}

// A message's body.
fn body_back(words: &[u64; 24]) -> MessageBody
    ensures { message_body result ≡ body_back words.now }
{
    match words[5] {
        1 => MessageBody::OpenResponse(open_back(words)),
        2 => MessageBody::CloseResponse(close_back(words)),
        _ => MessageBody::GetListResponse(list_back(words)),
    }
}

// A message's start.
fn start_back(words: &[u64; 24]) -> MessageStart
    ensures { message_start result ≡ start_back words.now }
{
    MessageStart {
        transaction_id: Span::back(words, 1),
        group_no: u8::back(words, 3),
        abort_on_error: u8::back(words, 4),
        message_body: body_back(words),
    }
}

// A list's end.
fn end_back(words: &[u64; 24]) -> GetListResponseEnd
    ensures { list_end result ≡ end_back words.now }
{
    GetListResponseEnd {
        list_signature: field_in(words, 1),
        act_gateway_time: field_in(words, 4),
    }
}

// A list entry.
fn entry_back(words: &[u64; 24]) -> ListEntry
    ensures { list_entry result ≡ entry_back words.now }
{
    ListEntry {
        obj_name: Span::back(words, 1),
        status: field_in(words, 3),
        val_time: field_in(words, 6),
        unit: field_in(words, 8),
        scaler: field_in(words, 10),
        value: Value::back(words, 12),
        value_signature: field_in(words, 17),
    }
}

// Some event, whatever the words are.
#[tactic(auto, unfolding(crate::specs::Back::event_back))]
fn event_back(words: &[u64; 24]) -> ParseEvent
    ensures { parse_event result ≡ event_back words.now }
{
    match words[0] {
        1 => ParseEvent::MessageStart(start_back(words)),
        2 => ParseEvent::GetListResponseEnd(end_back(words)),
        _ => ParseEvent::ListEntry(entry_back(words)),
    }
}

// The event whose words these are: one is read from any words, and kept only if its own are the same.
#[tactic(auto, using(crate::proofs::Back::words_kept, crate::proofs::Back::words_left))]
pub fn event_of(words: &[u64; 24]) -> Option<ParseEvent>
    ensures { opt_event result ≡ event_of words.now }
{
    let e = event_back(words);
    (event_words(Ok(Some(e))) == *words).then_some(e)
}
