// A writer for messages: the crate has none. Strings are spans into one lent `strings`, in the records that the reader gives; what was read can be written as it is.
#![tactic(auto)]

ghost use Rattle.std.specs.Prelude.{◌≡◌, [], ◌∷◌, ◌++◌, ◌+◌, ◌*◌, ◌/◌, ◌%◌, ◌^◌, ◌-◌, ◌≤◌, ◌<◌, List, ℕ, ℤ, length, leb, take, drop};
ghost use Rattle.std.specs.Int.Signed.{mag};
ghost use Rattle.tlf.specs.Written.{ty_number, total, more_bit, length_bytes};
ghost use Rattle.crc_x25.specs.Crc.{start, register};
ghost use Rattle.octet_string.specs.Strings.{span_within, part_of};
ghost use Rattle.octet_string.specs.Answers.{opt_span};
ghost use Rattle.std.proofs.Math.Option.{Option};
ghost use Rattle.refusals.specs.Answers.{as_it_is, opt_of};
ghost use Rattle.refusals.specs.declared.Span.{Span};
ghost use Rattle.value.specs.Values as ValueSpec;
ghost use Rattle.value.specs.Answers.{seconds, status, value};
ghost use Rattle.common.specs.Answers.{open_response, close_response, list_entry};
ghost use Rattle.message.specs.Messages.{Body, open_body, close_body, list_body};
ghost use Rattle.message.specs.Answers.{list_start, list_end};
ghost use Rattle.streaming.specs.Next.{start_event, entry_event};
ghost use Rattle.streaming.specs.Meaning.{each, value_means, entry_means, open_means, close_means, list_start_means, list_end_means, start_means, strings_of, opt, value_strings};
ghost use Rattle.writer.specs.Fields.{length_count, write_tlf, in_bytes, signed_count, low_bytes, write_unsigned, write_signed, write_bool, write_octets, write_optional, write_present, write_time, write_status, write_value, write_entry};
ghost use Rattle.writer.specs.Messages.{open_bytes, close_bytes, list_start_bytes, list_end_bytes, write_start, write_trailer};
ghost use Rattle.writer.specs.Calls.{all_within, start_with, whole_to, start_to, entry_to, end_to};
ghost use Rattle.writer.specs.Answers.{place_written, list_written, after_write};
ghost use Rattle.tlf.specs.declared.Ty.TheVariants.{ListOf};
ghost use Rattle.writer.specs.Cut.{PutsOn, head_bytes, short_field, short_value, short_entry};

use common::{CloseResponse, ListEntry, OpenResponse};
use message::{GetListResponseEnd, GetListResponseStart};
use refusals::Span;
use tlf::Ty;
use value::{Status, Time, Value};

// The fields before a message's body.
#[derive(Clone, Copy)]
pub struct Head {
    pub transaction_id: Span,
    pub group_no: u8,
    pub abort_on_error: u8,
}

#[derive(Clone, Copy, PartialEq, Eq)]
pub enum WriteError {
    BadState,
    WrongNumber,
    BadSpan,
    OutputTooShort,
}

// Of a list's message that is being written.
#[derive(Clone, Copy)]
pub enum ListState {
    // So many entries are still to come; the CRC register over what stands there.
    Entries { left: u32, crc: u16 },
    Ended,
}

#[derive(Clone, Copy)]
pub struct ListWriter {
    pub place: usize,
    pub state: ListState,
}

// Where bytes are put: an output, and the place in it, which moves with each of them.
#[derive(Drop)]
struct Output<'o> {
    out: &'o mut [u8],
    at: usize,
}

// The other side of SmlParse: what can be put at any place of any output, and has no string.
trait SmlWrite: Copy {
    // What a value says in document 01's words, and the bytes of that.
    ghost Meaning: { Type 0 };

    ghost means: { Self → Meaning };

    ghost written: { Meaning → List ℕ };

    // The bytes, from where the output is.
    fn put(self, w: &mut Output)
        ensures { PutsOn w.old (written (means self)) w.new };
}

// Byte k of v, counted from the low end.
#[tactic(auto, using(crate::proofs::Numbers::pow_256))]
fn byte_of(v: u64, k: u32) -> u8
    requires { k < 8 }
    ensures { result ≡ v / 256 ^ k % 256 }
{
    ((v >> (8 * k)) % 256) as u8
}

// The number of a type, in bits 6 to 4.
fn ty_number(ty: Ty) -> u8
    ensures { result ≡ ty_number ty }
{
    ty as u8
}

// What n length bytes say: except for lists they count themselves. That a length is below 2 to the 63 and n at most 16 stays a clause: a slice is no longer, and a type for it would be unwrapped at every use.
fn total(ty: Ty, len: usize, n: u32) -> usize
    requires { (len < 2 ^ 63) × (n ≤ 16) }
    ensures { result ≡ total ty len n }
{
    if ty.is_list() { len } else { len + n as usize }
}

// Whether v needs more than n times four bits.
fn over(v: usize, n: u32) -> bool
    requires { n ≤ 16 }
    ensures { result ≡ leb (16 ^ n) v }
{
    n != 16 && (v >> (4 * n)) != 0
}

// The fewest length bytes.
fn length_count(ty: Ty, len: usize) -> u32
    requires { len < 2 ^ 63 }
    ensures { (result ≡ length_count ty len) × (1 ≤ result) × (result ≤ 16) }
{
    for n in 1..16 {
        if !over(total(ty, len, n), n) {
            return n;
        }
    }
    16
}

// Bit 7, where k more length bytes follow.
fn more_bit(k: u32) -> u8
    ensures { result ≡ more_bit k }
{
    if k == 0 { 0 } else { 128 }
}

// Four bits of v, the k-th from the low end.
#[tactic(auto, using(crate::proofs::Numbers::pow_16))]
fn nibble(v: usize, k: u32) -> u8
    requires { k < 16 }
    ensures { (result ≡ v / 16 ^ k % 16) × (result < 16) }
{
    ((v >> (4 * k)) % 16) as u8
}

// How far a number is from 0, or from -1 if it is negative.
fn magnitude(z: i64) -> u64
    ensures { result ≡ mag z }
{
    if z < 0 { (-1 - z) as u64 } else { z as u64 }
}

// As many bytes as twice its magnitude has: the sign wants one bit more.
fn signed_count(z: i64) -> u32
    ensures { (result ≡ signed_count z) × (1 ≤ result) × (result ≤ 8) × (mag z < 256 ^ result / 2) }
{
    byte_count::byte_count(2 * magnitude(z))
}

// A signed number as the number of so many bytes.
fn low_bytes(n: u32, z: i64) -> u64
    requires { (1 ≤ n) × (n ≤ 8) × (mag z < 256 ^ n / 2) }
    ensures { result ≡ low_bytes n z }
{
    if z < 0 {
        (u64::MAX >> (64 - 8 * n)) - magnitude(z)
    } else {
        z as u64
    }
}

// Whether so many bytes fit from a place on.
fn fits(len: usize, at: usize, n: usize) -> bool
    ensures { result ≡ leb (at + n) len }
{
    at <= len && n <= len - at
}

// `part` goes to `out`. Not by `copy_from_slice`: with a length known only at run time that calls memmove, which the archive for C would need from outside. Tried: by eights, as encoder goes by fours: no fewer instructions on strings of 6, 40 or 200 bytes.
fn copy_part(out: &mut [u8], part: &[u8])
    requires { length part.now ≡ length out.old }
    ensures { out.new ≡ part.now }
{
    for (i, b) in out.iter_mut().enumerate() {
        *b = part[i];
    }
}

impl<'o> Output<'o> {
    // One byte; beyond the output the place moves all the same, so that a run over a byte of our own tells where all would end. At the greatest place it stays.
    fn put_next(&mut self, b: u8)
        ensures { PutsOn self.old (b ∷ []) self.new }
    {
        if self.at < self.out.len() {
            self.out[self.at] = b;
            self.at += 1;
            return;
        }
        self.at = self.at.saturating_add(1);
    }

    // v in n bytes, high byte first.
    fn put_bytes(&mut self, n: u32, v: u64)
        requires { n ≤ 8 }
        ensures { PutsOn self.old (in_bytes n v) self.new }
    {
        for k in (0..n).rev() {
            self.put_next(byte_of(v, k));
        }
    }

    // v in n length bytes, high four bits first. No twin of put_bytes: a length byte carries bit 7.
    fn put_length(&mut self, n: u32, v: usize)
        requires { n ≤ 16 }
        ensures { PutsOn self.old (length_bytes n v) self.new }
    {
        for k in (0..n).rev() {
            self.put_next(more_bit(k) + nibble(v, k));
        }
    }

    // Type and length in more than one length byte.
    fn put_long_tlf(&mut self, ty: Ty, len: usize)
        requires { len < 2 ^ 63 }
        ensures { PutsOn self.old (write_tlf ty len) self.new }
    {
        let n = length_count(ty, len);
        let v = total(ty, len, n);
        let k = n - 1;
        self.put_next(more_bit(k) + 16 * ty_number(ty) + nibble(v, k));
        self.put_length(k, v);
    }

    // Type and length, by a short way where one length byte holds them.
    fn put_tlf(&mut self, ty: Ty, len: usize)
        requires { len < 2 ^ 63 }
        ensures { PutsOn self.old (write_tlf ty len) self.new }
    {
        let own = total(ty, len, 1);
        if own < 16 {
            self.put_next(16 * ty_number(ty) + own as u8);
            return;
        }
        self.put_long_tlf(ty, len);
    }

    // An unsigned number with the fewest bytes: at most eight, so one length byte, of type 6, says them and itself. One byte is by far the most frequent, and goes by a short way.
    #[tactic(auto, using(crate::proofs::Numbers::count_range))]
    fn put_unsigned(&mut self, v: u64)
        ensures { PutsOn self.old (write_unsigned v) self.new }
    {
        if v < 256 {
            self.put_next(0x62);
            self.put_next(v as u8);
            return;
        }
        let n = byte_count::byte_count(v);
        self.put_next(0x61 + n as u8);
        self.put_bytes(n, v);
    }

    // A signed number with the fewest bytes that carry its sign; type 5. The same short way.
    fn put_signed(&mut self, z: i64)
        ensures { PutsOn self.old (write_signed z) self.new }
    {
        if magnitude(z) < 128 {
            self.put_next(0x52);
            self.put_next(low_bytes(1, z) as u8);
            return;
        }
        let n = signed_count(z);
        self.put_next(0x51 + n as u8);
        self.put_bytes(n, low_bytes(n, z));
    }

    // A Boolean: 42 01 or 42 00.
    fn put_bool(&mut self, b: bool)
        ensures { PutsOn self.old (write_bool b) self.new }
    {
        self.put_next(0x42);
        self.put_next(b as u8);
    }

    // All bytes of a part, where they fit.
    fn put_part(&mut self, part: &[u8])
        ensures { PutsOn self.old part.now self.new }
    {
        let end = self.at.saturating_add(part.len());
        if end <= self.out.len() {
            copy_part(&mut self.out[self.at..end], part);
        }
        self.at = end;
    }

    // The register behind what stands from a place on.
    fn sum_from(&self, crc: u16, from: usize) -> u16
        requires { (from ≤ self.now.at) × (self.now.at ≤ length self.now.out.now) }
        ensures { result ≡ register crc (take (self.now.at - from) (drop from self.now.out.now)) }
    {
        crc_x25::update(crc, &self.out[from..self.at])
    }

    // A string that must be there.
    fn put_octets(&mut self, strings: &[u8], span: Span)
        ensures { PutsOn self.old (write_octets (part_of strings.now span)) self.new }
    {
        let part = octet_string::octet_str(strings, span);
        self.put_tlf(Ty::OctetString, part.len());
        self.put_part(part);
    }

    // An optional string; one that is present and empty is 80 02.
    #[tactic(auto, unfolding(crate::specs::Fields::write_optional), using(crate::proofs::Puts::adds_then, crate::proofs::Sums::handed_bytes, crate::proofs::Numbers::present_none, crate::proofs::Numbers::present_some))]
    fn put_opt_octets(&mut self, strings: &[u8], field: Option<Span>)
        ensures { PutsOn self.old (write_optional write_present (each (part_of strings.now) (opt_span field))) self.new }
    {
        let Some(span) = field else {
            self.put_next(0x01);
            return;
        };
        if octet_string::octet_str(strings, span).is_empty() {
            self.put_next(0x80);
            self.put_next(0x02);
            return;
        }
        self.put_octets(strings, span);
    }

    // A time is a list of 2: tag 1 and the seconds.
    fn put_time(&mut self, t: u32)
        ensures { PutsOn self.old (write_time t) self.new }
    {
        self.put_next(0x72);
        self.put_unsigned(1);
        self.put_unsigned(t as u64);
    }

    // A time as a value: a list of 2, tag 1 and the time.
    fn put_list_time(&mut self, t: u32)
        ensures { PutsOn self.old (write_tlf ListOf 2 ++ write_unsigned 1 ++ write_time t) self.new }
    {
        self.put_next(0x72);
        self.put_unsigned(1);
        self.put_time(t);
    }

    // A value; the width of a number does not count.
    #[tactic(auto, unfolding(crate::specs::Fields::write_value))]
    fn put_value(&mut self, strings: &[u8], x: Value)
        ensures { PutsOn self.old (write_value (value_means strings.now (value x))) self.new }
    {
        match x {
            Value::Bool(b) => self.put_bool(b),
            Value::Bytes(span) => self.put_octets(strings, span),
            Value::I8(z) => self.put_signed(z as i64),
            Value::I16(z) => self.put_signed(z as i64),
            Value::I32(z) => self.put_signed(z as i64),
            Value::I64(z) => self.put_signed(z),
            Value::U8(v) => self.put_unsigned(v as u64),
            Value::U16(v) => self.put_unsigned(v as u64),
            Value::U32(v) => self.put_unsigned(v as u64),
            Value::U64(v) => self.put_unsigned(v),
            Value::List(x) => self.put_list_time(x.time.sec_index),
        }
    }

    // A list's entry: seven fields.
    fn put_entry(&mut self, strings: &[u8], x: ListEntry)
        ensures { PutsOn self.old (write_entry (entry_means strings.now (list_entry x))) self.new }
    {
        self.put_next(0x77);
        self.put_octets(strings, x.obj_name);
        x.status.put(self);
        x.val_time.put(self);
        x.unit.put(self);
        x.scaler.put(self);
        self.put_value(strings, x.value);
        self.put_opt_octets(strings, x.value_signature);
    }

    // A message's list of 6 up to its body, which is a list of 2, and the body's tag.
    fn put_head(&mut self, strings: &[u8], head: Head, tag: u64)
        ensures { PutsOn self.old (head_bytes strings.now head tag) self.new }
    {
        self.put_next(0x76);
        self.put_octets(strings, head.transaction_id);
        self.put_unsigned(head.group_no as u64);
        self.put_unsigned(head.abort_on_error as u64);
        self.put_next(0x72);
        self.put_unsigned(tag);
    }

    // An open response's six fields.
    fn put_open(&mut self, strings: &[u8], x: OpenResponse)
        ensures { PutsOn self.old (open_bytes (open_means strings.now (open_response x))) self.new }
    {
        self.put_next(0x76);
        self.put_opt_octets(strings, x.codepage);
        self.put_opt_octets(strings, x.client_id);
        self.put_octets(strings, x.req_file_id);
        self.put_octets(strings, x.server_id);
        x.ref_time.put(self);
        x.sml_version.put(self);
    }

    // A close response's one field.
    fn put_close(&mut self, strings: &[u8], x: CloseResponse)
        ensures { PutsOn self.old (close_bytes (close_means strings.now (close_response x))) self.new }
    {
        self.put_next(0x71);
        self.put_opt_octets(strings, x.global_signature);
    }

    // Up to the head of the list of entries, which says how many they are.
    fn put_list(&mut self, strings: &[u8], x: GetListResponseStart)
        ensures { PutsOn self.old (list_start_bytes (list_start_means strings.now (list_start x))) self.new }
    {
        self.put_next(0x77);
        self.put_opt_octets(strings, x.client_id);
        self.put_octets(strings, x.server_id);
        self.put_opt_octets(strings, x.list_name);
        x.act_sensor_time.put(self);
        self.put_tlf(Ty::ListOf, x.num_vals as usize);
    }

    // The two fields behind the entries.
    fn put_list_end(&mut self, strings: &[u8], x: GetListResponseEnd)
        ensures { PutsOn self.old (list_end_bytes (list_end_means strings.now (list_end x))) self.new }
    {
        self.put_opt_octets(strings, x.list_signature);
        x.act_gateway_time.put(self);
    }

    // The CRC, bytes swapped, and the end byte.
    fn put_trailer(&mut self, crc: u16)
        ensures { PutsOn self.old (write_trailer crc) self.new }
    {
        self.put_unsigned(crc_x25::finalize(crc).swap_bytes() as u64);
        self.put_next(0x00);
    }

    // A list response up to its first entry.
    fn put_list_start(&mut self, strings: &[u8], head: Head, x: GetListResponseStart)
        ensures { PutsOn self.old (write_start (start_means strings.now (start_with head (list_body (list_start x))))) self.new }
    {
        self.put_head(strings, head, 0x0701);
        self.put_list(strings, x);
    }
}

// An optional field that is absent is one byte 01.
impl<T: SmlWrite> SmlWrite for Option<T> {
    ghost Meaning = { Option T.Meaning };

    ghost means = { opt_of T.means };

    ghost written = { write_optional T.written };

    // A field that is there is put as its own type is.
    #[tactic(auto, unfolding(crate::specs::Fields::write_optional))]
    fn put(self, w: &mut Output) {
        match self {
            Some(x) => x.put(w),
            None => w.put_next(0x01),
        }
    }
}

impl SmlWrite for u8 {
    ghost Meaning = { ℕ };

    ghost means = { as_it_is };

    ghost written = { write_unsigned };

    // An unsigned number.
    fn put(self, w: &mut Output) {
        w.put_unsigned(self as u64);
    }
}

impl SmlWrite for i8 {
    ghost Meaning = { ℤ };

    ghost means = { as_it_is };

    ghost written = { write_signed };

    // A signed number.
    fn put(self, w: &mut Output) {
        w.put_signed(self as i64);
    }
}

impl SmlWrite for Time {
    ghost Meaning = { ℕ };

    ghost means = { seconds };

    ghost written = { write_time };

    // The seconds, as a time.
    fn put(self, w: &mut Output) {
        w.put_time(self.sec_index);
    }
}

// The number of a status, whatever its width.
fn status_number(x: Status) -> u64
    ensures { result ≡ (status x).number }
{
    match x {
        Status::Status8(v) => v as u64,
        Status::Status16(v) => v as u64,
        Status::Status32(v) => v as u64,
        Status::Status64(v) => v,
    }
}

impl SmlWrite for Status {
    ghost Meaning = { ValueSpec.Status };

    ghost means = { status };

    ghost written = { write_status };

    // The number of a status, of which the width does not count.
    #[tactic(auto, unfolding(crate::specs::Fields::write_status))]
    fn put(self, w: &mut Output) {
        w.put_unsigned(status_number(self));
    }
}

// The register behind an octet string: its length bytes, of which 32 places hold any number, then its bytes. Each sum_ runs beside its put_: how long the trailer is hangs on the register, which so is there before a byte is put.
fn sum_octets(crc: u16, strings: &[u8], span: Span) -> u16
    ensures { result ≡ register crc (write_octets (part_of strings.now span)) }
{
    let part = octet_string::octet_str(strings, span);
    let mut bytes = [0u8; 32];
    let mut w = Output {
        out: &mut bytes,
        at: 0,
    };
    w.put_tlf(Ty::OctetString, part.len());
    crc_x25::update(w.sum_from(crc, 0), part)
}

// The register behind an optional string.
fn sum_opt_octets(crc: u16, strings: &[u8], field: Option<Span>) -> u16
    ensures { result ≡ register crc (write_optional write_present (each (part_of strings.now) (opt_span field))) }
{
    let Some(span) = field else {
        return crc_x25::update_byte(crc, 0x01);
    };
    if octet_string::octet_str(strings, span).is_empty() {
        return crc_x25::update_byte(crc_x25::update_byte(crc, 0x80), 0x02);
    }
    sum_octets(crc, strings, span)
}

// The register behind a message up to its body's content.
fn sum_head(strings: &[u8], head: Head, tag: u64) -> u16
    ensures { result ≡ register start (head_bytes strings.now head tag) }
{
    let r0 = crc_x25::update_byte(crc_x25::digest(), 0x76);
    let r1 = sum_octets(r0, strings, head.transaction_id);
    let mut bytes = [0u8; 128];
    let mut w = Output {
        out: &mut bytes,
        at: 0,
    };
    w.put_unsigned(head.group_no as u64);
    w.put_unsigned(head.abort_on_error as u64);
    w.put_next(0x72);
    w.put_unsigned(tag);
    w.sum_from(r1, 0)
}

// The register behind an open response: strings as they stand; 128 places hold any time and version.
fn sum_open(crc: u16, strings: &[u8], x: OpenResponse) -> u16
    ensures { result ≡ register crc (open_bytes (open_means strings.now (open_response x))) }
{
    let r0 = crc_x25::update_byte(crc, 0x76);
    let r1 = sum_opt_octets(r0, strings, x.codepage);
    let r2 = sum_opt_octets(r1, strings, x.client_id);
    let r3 = sum_octets(r2, strings, x.req_file_id);
    let r4 = sum_octets(r3, strings, x.server_id);
    let mut bytes = [0u8; 128];
    let mut w = Output {
        out: &mut bytes,
        at: 0,
    };
    x.ref_time.put(&mut w);
    x.sml_version.put(&mut w);
    w.sum_from(r4, 0)
}

// The register behind a close response.
fn sum_close(crc: u16, strings: &[u8], x: CloseResponse) -> u16
    ensures { result ≡ register crc (close_bytes (close_means strings.now (close_response x))) }
{
    sum_opt_octets(crc_x25::update_byte(crc, 0x71), strings, x.global_signature)
}

// The register behind the fields of a list's end; 128 places hold any time.
fn sum_list_end(crc: u16, strings: &[u8], x: GetListResponseEnd) -> u16
    ensures { result ≡ register crc (list_end_bytes (list_end_means strings.now (list_end x))) }
{
    let r = sum_opt_octets(crc, strings, x.list_signature);
    let mut bytes = [0u8; 128];
    let mut w = Output {
        out: &mut bytes,
        at: 0,
    };
    x.act_gateway_time.put(&mut w);
    w.sum_from(r, 0)
}

// Whether a string lies within the strings.
#[tactic(auto, unfolding(octet_string::specs::Strings::span_refusal))]
fn within(strings: &[u8], span: Span) -> bool
    ensures { result ≡ span_within strings.now span }
{
    octet_string::check_span(strings, span).is_ok()
}

// Whether an optional string does.
#[tactic(auto, unfolding(crate::specs::Calls::all_within))]
fn opt_within(strings: &[u8], field: Option<Span>) -> bool
    ensures { result ≡ all_within strings.now (opt (opt_span field) []) }
{
    match field {
        Some(span) => within(strings, span),
        None => true,
    }
}

// Whether the string of a value does, if it has one.
#[tactic(auto, unfolding(crate::specs::Calls::all_within))]
fn value_within(strings: &[u8], x: Value) -> bool
    ensures { result ≡ all_within strings.now (value_strings (value x) []) }
{
    match x {
        Value::Bytes(span) => within(strings, span),
        _ => true,
    }
}

// Whether all strings of an entry do.
#[tactic(auto, unfolding(crate::specs::Calls::all_within), using(crate::proofs::Strings::within_value))]
fn entry_within(strings: &[u8], x: ListEntry) -> bool
    ensures { result ≡ all_within strings.now (strings_of (entry_event (list_entry x))) }
{
    within(strings, x.obj_name)
        && value_within(strings, x.value)
        && opt_within(strings, x.value_signature)
}

// Whether all strings of a list's start and its head do.
#[tactic(auto, unfolding(crate::specs::Calls::all_within), using(crate::proofs::Strings::within_opt))]
fn list_within(strings: &[u8], head: Head, x: GetListResponseStart) -> bool
    ensures { result ≡ all_within strings.now (strings_of (start_event (start_with head (list_body (list_start x))))) }
{
    within(strings, head.transaction_id)
        && opt_within(strings, x.client_id)
        && within(strings, x.server_id)
        && opt_within(strings, x.list_name)
}

// What is written in one call, with its CRC and end byte: an open and a close response.
trait WholeBody: Copy {
    // What it says in document 01's words.
    ghost body: { Self → Body Span };

    // Whether all strings of it and its head lie within the strings.
    fn is_within(self, strings: &[u8], head: Head) -> bool
        ensures { result ≡ all_within strings.now (strings_of (start_event (start_with head (body self)))) };

    // The register behind head and body.
    fn sum_start(self, strings: &[u8], head: Head) -> u16
        ensures { result ≡ register start (write_start (start_means strings.now (start_with head (body self)))) };

    // Head and body, up to the CRC.
    fn put_start(self, w: &mut Output, strings: &[u8], head: Head)
        ensures { PutsOn w.old (write_start (start_means strings.now (start_with head (body self)))) w.new };
}

impl WholeBody for OpenResponse {
    ghost body = { λ x. open_body (open_response x) };

    // An open response's four strings.
    #[tactic(auto, unfolding(crate::specs::Calls::all_within), using(crate::proofs::Strings::within_opt))]
    fn is_within(self, strings: &[u8], head: Head) -> bool {
        within(strings, head.transaction_id)
            && opt_within(strings, self.codepage)
            && opt_within(strings, self.client_id)
            && within(strings, self.req_file_id)
            && within(strings, self.server_id)
    }

    // Tag 0101.
    fn sum_start(self, strings: &[u8], head: Head) -> u16 {
        sum_open(sum_head(strings, head, 0x0101), strings, self)
    }

    // The same tag.
    fn put_start(self, w: &mut Output, strings: &[u8], head: Head) {
        w.put_head(strings, head, 0x0101);
        w.put_open(strings, self);
    }
}

impl WholeBody for CloseResponse {
    ghost body = { λ x. close_body (close_response x) };

    // A close response's one string.
    #[tactic(auto, unfolding(crate::specs::Calls::all_within))]
    fn is_within(self, strings: &[u8], head: Head) -> bool {
        within(strings, head.transaction_id) && opt_within(strings, self.global_signature)
    }

    // Tag 0201.
    fn sum_start(self, strings: &[u8], head: Head) -> u16 {
        sum_close(sum_head(strings, head, 0x0201), strings, self)
    }

    // The same tag.
    fn put_start(self, w: &mut Output, strings: &[u8], head: Head) {
        w.put_head(strings, head, 0x0201);
        w.put_close(strings, self);
    }
}

// A whole message: its length is told by a run over a byte of our own, and nothing is put where it does not fit.
fn write_whole<B: WholeBody>(
    out: &mut [u8],
    at: usize,
    strings: &[u8],
    head: Head,
    body: B,
) -> Result<usize, WriteError>
    ensures { after_write (place_written result) out.new ≡ whole_to out.old at strings.now head (B.body body) }
{
    if out.len() < at {
        return Err(WriteError::BadState);
    }
    if !body.is_within(strings, head) {
        return Err(WriteError::BadSpan);
    }
    let crc = body.sum_start(strings, head);
    let mut nowhere = [0u8; 1];
    let mut tried = Output {
        out: &mut nowhere,
        at,
    };
    body.put_start(&mut tried, strings, head);
    tried.put_trailer(crc);
    if out.len() < tried.at {
        return Err(WriteError::OutputTooShort);
    }
    let mut w = Output { out, at };
    body.put_start(&mut w, strings, head);
    w.put_trailer(crc);
    Ok(w.at)
}

// An open response, with its CRC and end byte.
pub fn write_open(
    out: &mut [u8],
    at: usize,
    strings: &[u8],
    head: Head,
    open: OpenResponse,
) -> Result<usize, WriteError>
    ensures { after_write (place_written result) out.new ≡ whole_to out.old at strings.now head (open_body (open_response «open»)) }
{
    write_whole(out, at, strings, head, open)
}

// A close response, with its CRC and end byte.
pub fn write_close(
    out: &mut [u8],
    at: usize,
    strings: &[u8],
    head: Head,
    close: CloseResponse,
) -> Result<usize, WriteError>
    ensures { after_write (place_written result) out.new ≡ whole_to out.old at strings.now head (close_body (close_response close)) }
{
    write_whole(out, at, strings, head, close)
}

// The start of a list response, up to its first entry; it announces `num_vals` entries.
pub fn write_list_start(
    out: &mut [u8],
    at: usize,
    strings: &[u8],
    head: Head,
    list: GetListResponseStart,
) -> Result<ListWriter, WriteError>
    ensures { after_write (list_written result) out.new ≡ start_to out.old at strings.now head (list_start list) }
{
    if out.len() < at {
        return Err(WriteError::BadState);
    }
    if !list_within(strings, head, list) {
        return Err(WriteError::BadSpan);
    }
    let mut nowhere = [0u8; 1];
    let mut tried = Output {
        out: &mut nowhere,
        at,
    };
    tried.put_list_start(strings, head, list);
    if out.len() < tried.at {
        return Err(WriteError::OutputTooShort);
    }
    let mut w = Output { out, at };
    w.put_list_start(strings, head, list);
    let crc = w.sum_from(crc_x25::digest(), at);
    let state = ListState::Entries {
        left: list.num_vals,
        crc,
    };
    Ok(ListWriter { place: w.at, state })
}

// Whether an optional string has at most 64 bytes, as a meter's have.
fn short_opt(field: Option<Span>) -> bool
    ensures { result ≡ short_field (opt_span field) }
{
    match field {
        Some(span) => span.len <= 64,
        None => true,
    }
}

// Whether a value is: only a string can be long.
fn short_value(x: Value) -> bool
    ensures { result ≡ short_value (value x) }
{
    match x {
        Value::Bytes(span) => span.len <= 64,
        _ => true,
    }
}

// Whether all strings of an entry are: then it takes at most 512 bytes.
fn short_entry(x: ListEntry) -> bool
    ensures { result ≡ short_entry (list_entry x) }
{
    x.obj_name.len <= 64 && short_value(x.value) && short_opt(x.value_signature)
}

// Whether an entry fits from a place on: seen at once where 512 bytes are left for a short one, else found by a run over a byte of our own.
fn entry_fits(len: usize, place: usize, strings: &[u8], x: ListEntry) -> bool
    requires { len < 2 ^ 63 }
    ensures { result ≡ leb (place + length (write_entry (entry_means strings.now (list_entry x)))) len }
{
    if fits(len, place, 512) && short_entry(x) {
        return true;
    }
    let mut nowhere = [0u8; 1];
    let mut w = Output {
        out: &mut nowhere,
        at: place,
    };
    w.put_entry(strings, x);
    w.at <= len
}

// One entry of a list that is being written.
pub fn write_list_entry(
    out: &mut [u8],
    w: ListWriter,
    strings: &[u8],
    entry: ListEntry,
) -> Result<ListWriter, WriteError>
    ensures { after_write (list_written result) out.new ≡ entry_to out.old w strings.now (list_entry entry) }
{
    let place = w.place;
    if out.len() < place {
        return Err(WriteError::BadState);
    }
    let ListState::Entries { left, crc } = w.state else {
        return Err(WriteError::WrongNumber);
    };
    if left == 0 {
        return Err(WriteError::WrongNumber);
    }
    if !entry_within(strings, entry) {
        return Err(WriteError::BadSpan);
    }
    if !entry_fits(out.len(), place, strings, entry) {
        return Err(WriteError::OutputTooShort);
    }
    let mut put = Output { out, at: place };
    put.put_entry(strings, entry);
    let crc = put.sum_from(crc, place);
    let state = ListState::Entries {
        left: left - 1,
        crc,
    };
    Ok(ListWriter {
        place: put.at,
        state,
    })
}

// The end of a list response, with the message's CRC and end byte.
pub fn write_list_end(
    out: &mut [u8],
    w: ListWriter,
    strings: &[u8],
    end: GetListResponseEnd,
) -> Result<ListWriter, WriteError>
    ensures { after_write (list_written result) out.new ≡ end_to out.old w strings.now (list_end end) }
{
    let place = w.place;
    if out.len() < place {
        return Err(WriteError::BadState);
    }
    let ListState::Entries { left, crc } = w.state else {
        return Err(WriteError::WrongNumber);
    };
    if 0 < left {
        return Err(WriteError::WrongNumber);
    }
    if !opt_within(strings, end.list_signature) {
        return Err(WriteError::BadSpan);
    }
    let sum = sum_list_end(crc, strings, end);
    let mut nowhere = [0u8; 1];
    let mut tried = Output {
        out: &mut nowhere,
        at: place,
    };
    tried.put_list_end(strings, end);
    tried.put_trailer(sum);
    if out.len() < tried.at {
        return Err(WriteError::OutputTooShort);
    }
    let mut put = Output { out, at: place };
    put.put_list_end(strings, end);
    put.put_trailer(sum);
    Ok(ListWriter {
        place: put.at,
        state: ListState::Ended,
    })
}
