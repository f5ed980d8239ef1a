// The command `leaf`: one field at the input's start, and how many bytes are left behind it.
use super::fields::{Show, error};
use super::line::{bad, cut, text, with_bytes};
use numbers::SmlParse;
use refusals::Span;
use std::io;
use value::{Status, Time, Value};

pub(crate) fn leaf(rt: &impl Print, rest: &[u8]) -> io::Result<()> {
    let (kind, hex) = cut(rest, b' ');
    with_bytes(rt, hex, |input| field(rt, kind, input))
}

// A field of the kind that has this name.
fn field(rt: &impl Print, kind: &[u8], input: &[u8]) -> io::Result<()> {
    match kind {
        b"u8" => shown::<u8>(rt, input),
        b"u16" => shown::<u16>(rt, input),
        b"u32" => shown::<u32>(rt, input),
        b"u64" => shown::<u64>(rt, input),
        b"i8" => shown::<i8>(rt, input),
        b"i16" => shown::<i16>(rt, input),
        b"i32" => shown::<i32>(rt, input),
        b"i64" => shown::<i64>(rt, input),
        b"bool" => shown::<bool>(rt, input),
        b"oct" => shown::<Span>(rt, input),
        b"time" => shown::<Time>(rt, input),
        b"value" => shown::<Value>(rt, input),
        b"status" => shown::<Status>(rt, input),
        b"opt_u8" => shown::<Option<u8>>(rt, input),
        b"opt_i8" => shown::<Option<i8>>(rt, input),
        b"opt_oct" => shown::<Option<Span>>(rt, input),
        b"opt_time" => shown::<Option<Time>>(rt, input),
        b"opt_status" => shown::<Option<Status>>(rt, input),
        _ => bad(rt),
    }
}

// The field that the type reads, or its refusal.
fn shown<T: SmlParse + Show>(rt: &impl Print, input: &[u8]) -> io::Result<()> {
    match T::parse(input, 0) {
        Ok((value, next)) => {
            value.show(rt, input)?;
            left(rt, input, next)
        }
        Err(f) => error(rt, f, false),
    }
}

// What stands behind the field.
fn left(rt: &impl Print, input: &[u8], next: usize) -> io::Result<()> {
    match input.len().checked_sub(next) {
        Some(n) => print!(rt; " left {n}"),
        None => text(rt, b" left a place beyond the input"),
    }
}
