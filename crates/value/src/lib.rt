// Ports Time, Status and Value of parser/common.rs.
#![tactic(auto)]

ghost use Rattle.std.specs.Prelude.{ℕ, ◌≡◌, ◌/◌, ◌^◌, ◌<◌};
ghost use Rattle.std.specs.Int.Signed.{mag};
ghost use Rattle.refusals.specs.Answers.{reads_as};
ghost use Rattle.refusals.specs.declared.Span.{Span};
ghost use Rattle.tlf.specs.declared.Ty.{Ty};
ghost use Rattle.numbers.specs.Numbers.{unsigned_at, signed_at};
ghost use Rattle.value.specs.Values as ValueSpec;
ghost use Rattle.value.specs.Values.{is_bare_time, time_at, narrowest, status_of, status_at, signed, unsigned, signed_value, unsigned_value, list_type_at, value_of_claim, value_at};
ghost use Rattle.value.specs.Answers.{width_bytes, seconds, status, value};

use numbers::SmlParse;
use refusals::{ParseError, ResTy, Span};
use tlf::{Ty, TypeLengthField};

// Time::SecIndex of the Rust, its only variant.
#[derive(Clone, Copy, PartialEq, Eq)]
pub struct Time {
    pub sec_index: u32,
}

// Holley DTZ541 sends a bare u32 of four bytes where a Time should stand.
fn is_bare_time(tlf: TypeLengthField) -> bool
    ensures { result ≡ is_bare_time tlf }
{
    tlf.ty == Ty::Unsigned && tlf.len == 4
}

// Time::SecIndex: a number that is read as a time.
fn sec_index(input: &[u8], at: usize) -> ResTy<Time>
    ensures { reads_as seconds result ≡ unsigned_at 4 input.now at }
{
    let (sec_index, next) = u32::parse(input, at)?;
    Ok((Time { sec_index }, next))
}

impl SmlParse for Time {
    ghost Meaning = { ℕ };

    ghost means = { seconds };

    ghost read_at = { time_at };

    // Time of common.rs: a list of two with tag 1, or a bare unsigned number of four bytes.
    #[tactic(auto, unfolding(crate::specs::Values::time_at, refusals::specs::Read::then, refusals::specs::Read::guard))]
    fn parse(input: &[u8], at: usize) -> ResTy<Time> {
        let (tlf, n) = TypeLengthField::parse(input, at)?;
        if is_bare_time(tlf) {
            return sec_index(input, at);
        }
        if !tlf.is_list_of(2) {
            return Err(ParseError::TlfMismatch.at(at));
        }
        let (tag, next) = u8::parse(input, n)?;
        if tag != 1 {
            return Err(ParseError::UnexpectedVariant.at(n));
        }
        sec_index(input, next)
    }
}

// The widths that a number of a value or a status is given at, in bytes.
#[derive(Clone, Copy, PartialEq, Eq)]
enum Width {
    One,
    Two,
    Four,
    Eight,
}

// The narrowest that holds so many bytes; more than eight are refused at any.
fn width_of(len: u32) -> Width
    ensures { width_bytes result ≡ narrowest len }
{
    match len {
        0 | 1 => Width::One,
        2 => Width::Two,
        3 | 4 => Width::Four,
        _ => Width::Eight,
    }
}

#[derive(Clone, Copy, PartialEq, Eq)]
pub enum Status {
    Status8(u8),
    Status16(u16),
    Status32(u32),
    Status64(u64),
}

// A number that such a width holds, as a status. It and the two like it are no twins to join: each arm makes another variant of another type.
fn status_with(width: Width, number: u64) -> Status
    requires { number < 256 ^ width_bytes width }
    ensures { status result ≡ record { width = width_bytes width; number = number } }
{
    match width {
        Width::One => Status::Status8(number as u8),
        Width::Two => Status::Status16(number as u16),
        Width::Four => Status::Status32(number as u32),
        Width::Eight => Status::Status64(number),
    }
}

// The arms of Status's parse_with_tlf, in one: read at the widest, which finds what the narrowest that holds so many bytes finds, and given at that one.
#[tactic(auto, unfolding(crate::specs::Values::status_of, refusals::specs::Read::then))]
fn status_of(input: &[u8], at: usize, len: u32) -> ResTy<Status>
    requires { unsigned_at 8 input.now at ≡ unsigned_at (narrowest len) input.now at }
    ensures { reads_as status result ≡ status_of (narrowest len) input.now at }
{
    let (value, next) = u64::parse(input, at)?;
    Ok((status_with(width_of(len), value), next))
}

impl SmlParse for Status {
    ghost Meaning = { ValueSpec.Status };

    ghost means = { status };

    ghost read_at = { status_at };

    // Status of common.rs: an unsigned number at the narrowest width that holds its length.
    #[tactic(auto, unfolding(crate::specs::Values::status_at, refusals::specs::Read::then))]
    fn parse(input: &[u8], at: usize) -> ResTy<Status> {
        let (tlf, _) = TypeLengthField::parse(input, at)?;
        status_of(input, at, tlf.len)
    }
}

// ListType::Time of the Rust, its only variant.
#[derive(Clone, Copy, PartialEq, Eq)]
pub struct ListType {
    pub time: Time,
}

#[derive(Clone, Copy, PartialEq, Eq)]
pub enum Value {
    Bool(bool),
    Bytes(Span),
    I8(i8),
    I16(i16),
    I32(i32),
    I64(i64),
    U8(u8),
    U16(u16),
    U32(u32),
    U64(u64),
    List(ListType),
}

// The arm bool of Value's parse_with_tlf.
#[tactic(auto, unfolding(crate::specs::Values::value_of_claim, refusals::specs::Read::then))]
fn bool_value(input: &[u8], at: usize) -> ResTy<Value>
    ensures { reads_as value result ≡ value_of_claim Ty.Boolean 0 input.now at }
{
    let (b, next) = bool::parse(input, at)?;
    Ok((Value::Bool(b), next))
}

// The arm OctetStr of Value's parse_with_tlf.
#[tactic(auto, unfolding(crate::specs::Values::value_of_claim, refusals::specs::Read::then))]
fn bytes_value(input: &[u8], at: usize) -> ResTy<Value>
    ensures { reads_as value result ≡ value_of_claim Ty.OctetString 0 input.now at }
{
    let (span, next) = Span::parse(input, at)?;
    Ok((Value::Bytes(span), next))
}

// An integer that such a width holds, as a value.
fn signed_with(width: Width, number: i64) -> Value
    requires { mag number < 256 ^ width_bytes width / 2 }
    ensures { value result ≡ signed (width_bytes width) number }
{
    match width {
        Width::One => Value::I8(number as i8),
        Width::Two => Value::I16(number as i16),
        Width::Four => Value::I32(number as i32),
        Width::Eight => Value::I64(number),
    }
}

// The arms i8 to i64 of Value's parse_with_tlf, in one, as for a status.
#[tactic(auto, unfolding(crate::specs::Values::signed_value, refusals::specs::Read::then))]
fn signed_value(input: &[u8], at: usize, len: u32) -> ResTy<Value>
    requires { signed_at 8 input.now at ≡ signed_at (narrowest len) input.now at }
    ensures { reads_as value result ≡ signed_value (narrowest len) input.now at }
{
    let (number, next) = i64::parse(input, at)?;
    Ok((signed_with(width_of(len), number), next))
}

// A number that such a width holds, as a value.
fn unsigned_with(width: Width, number: u64) -> Value
    requires { number < 256 ^ width_bytes width }
    ensures { value result ≡ unsigned (width_bytes width) number }
{
    match width {
        Width::One => Value::U8(number as u8),
        Width::Two => Value::U16(number as u16),
        Width::Four => Value::U32(number as u32),
        Width::Eight => Value::U64(number),
    }
}

// The arms u8 to u64 of Value's parse_with_tlf, in one, as for a status.
#[tactic(auto, unfolding(crate::specs::Values::unsigned_value, refusals::specs::Read::then))]
fn unsigned_value(input: &[u8], at: usize, len: u32) -> ResTy<Value>
    requires { unsigned_at 8 input.now at ≡ unsigned_at (narrowest len) input.now at }
    ensures { reads_as value result ≡ unsigned_value (narrowest len) input.now at }
{
    let (number, next) = u64::parse(input, at)?;
    Ok((unsigned_with(width_of(len), number), next))
}

// ListType of common.rs: a list of two, tag 1 and a time.
#[tactic(auto, unfolding(crate::specs::Values::list_type_at, refusals::specs::Read::then, refusals::specs::Read::guard))]
fn parse_list_type(input: &[u8], at: usize) -> ResTy<Value>
    ensures { reads_as value result ≡ list_type_at input.now at }
{
    let n = tlf::parse_list_of(input, at, 2)?;
    let (tag, next) = u8::parse(input, n)?;
    if tag != 1 {
        return Err(ParseError::UnexpectedVariant.at(n));
    }
    let (time, end) = Time::parse(input, next)?;
    Ok((Value::List(ListType { time }), end))
}

impl SmlParse for Value {
    ghost Meaning = { ValueSpec.Value Span };

    ghost means = { value };

    ghost read_at = { value_at };

    // Value of common.rs: by its type, and a number at the narrowest width that holds its length.
    #[tactic(auto, unfolding(crate::specs::Values::value_at, crate::specs::Values::value_of_claim, refusals::specs::Read::then))]
    fn parse(input: &[u8], at: usize) -> ResTy<Value> {
        let (tlf, _) = TypeLengthField::parse(input, at)?;
        match tlf.ty {
            Ty::Boolean => bool_value(input, at),
            Ty::OctetString => bytes_value(input, at),
            Ty::Integer => signed_value(input, at, tlf.len),
            Ty::Unsigned => unsigned_value(input, at, tlf.len),
            Ty::ListOf => parse_list_type(input, at),
        }
    }
}
