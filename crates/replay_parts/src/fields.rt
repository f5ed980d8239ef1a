// A field of a message, and how it is written. The program of tests/forms writes the fields of its events by this text too.
use super::line::{hex, text};
use refusals::{Fault, ParseError, Span, TlfParseError};
use std::io;
use value::{Status, Time, Value};

// ---- fields

// What can be written; a string's bytes stand in the input.
pub(crate) trait Show: Copy {
    fn show(self, rt: &impl Print, input: &[u8]) -> io::Result<()>;
}

// The numbers. One impl each: one that a macro writes is refused by the gate, and one over all types that can be printed would be one for Time and Status, too.
impl Show for u8 {
    fn show(self, rt: &impl Print, _input: &[u8]) -> io::Result<()> {
        rt.print(self)
    }
}

impl Show for u16 {
    fn show(self, rt: &impl Print, _input: &[u8]) -> io::Result<()> {
        rt.print(self)
    }
}

impl Show for u32 {
    fn show(self, rt: &impl Print, _input: &[u8]) -> io::Result<()> {
        rt.print(self)
    }
}

impl Show for u64 {
    fn show(self, rt: &impl Print, _input: &[u8]) -> io::Result<()> {
        rt.print(self)
    }
}

impl Show for i8 {
    fn show(self, rt: &impl Print, _input: &[u8]) -> io::Result<()> {
        rt.print(self)
    }
}

impl Show for i16 {
    fn show(self, rt: &impl Print, _input: &[u8]) -> io::Result<()> {
        rt.print(self)
    }
}

impl Show for i32 {
    fn show(self, rt: &impl Print, _input: &[u8]) -> io::Result<()> {
        rt.print(self)
    }
}

impl Show for i64 {
    fn show(self, rt: &impl Print, _input: &[u8]) -> io::Result<()> {
        rt.print(self)
    }
}

impl Show for bool {
    fn show(self, rt: &impl Print, _input: &[u8]) -> io::Result<()> {
        rt.print(self as u8)
    }
}

impl Show for Span {
    fn show(self, rt: &impl Print, input: &[u8]) -> io::Result<()> {
        text(rt, b"x")?;
        hex(rt, octet_string::octet_str(input, self))
    }
}

impl Show for Time {
    fn show(self, rt: &impl Print, _input: &[u8]) -> io::Result<()> {
        print!(rt; "sec:{}", self.sec_index)
    }
}

impl Show for Status {
    fn show(self, rt: &impl Print, _input: &[u8]) -> io::Result<()> {
        match self {
            Status::Status8(x) => print!(rt; "u8:{x}"),
            Status::Status16(x) => print!(rt; "u16:{x}"),
            Status::Status32(x) => print!(rt; "u32:{x}"),
            Status::Status64(x) => print!(rt; "u64:{x}"),
        }
    }
}

impl Show for Value {
    fn show(self, rt: &impl Print, input: &[u8]) -> io::Result<()> {
        match self {
            Value::Bytes(span) => {
                text(rt, b"oct:")?;
                hex(rt, octet_string::octet_str(input, span))
            }
            Value::List(l) => print!(rt; "list:sec:{}", l.time.sec_index),
            Value::Bool(b) => print!(rt; "bool:{}", b as u8),
            Value::U8(x) => print!(rt; "u8:{x}"),
            Value::U16(x) => print!(rt; "u16:{x}"),
            Value::U32(x) => print!(rt; "u32:{x}"),
            Value::U64(x) => print!(rt; "u64:{x}"),
            Value::I8(x) => print!(rt; "i8:{x}"),
            Value::I16(x) => print!(rt; "i16:{x}"),
            Value::I32(x) => print!(rt; "i32:{x}"),
            Value::I64(x) => print!(rt; "i64:{x}"),
        }
    }
}

// What is absent is a `-`.
impl<T: Show> Show for Option<T> {
    fn show(self, rt: &impl Print, input: &[u8]) -> io::Result<()> {
        match self {
            Some(x) => x.show(rt, input),
            None => text(rt, b"-"),
        }
    }
}

// ---- refusals

// The kind of a wrong length field.
fn tlf_name(e: TlfParseError) -> &'static str {
    match e {
        TlfParseError::TlfLengthOverflow => "TlfLengthOverflow",
        TlfParseError::TlfReserved => "TlfReserved",
        TlfParseError::TlfLengthUnderflow => "TlfLengthUnderflow",
        TlfParseError::TlfNextByteTypeMismatch => "TlfNextByteTypeMismatch",
        TlfParseError::TlfInvalidTy => "TlfInvalidTy",
    }
}

// A refusal's name, and document 01's number.
fn told(e: ParseError) -> (&'static str, u8) {
    match e {
        ParseError::UnexpectedEOF => ("UnexpectedEOF", 10),
        ParseError::InvalidTlf(_) => ("InvalidTlf", 11),
        ParseError::TlfMismatch => ("TlfMismatch", 12),
        ParseError::UnexpectedVariant => ("UnexpectedVariant", 13),
        ParseError::CrcMismatch => ("CrcMismatch", 14),
        ParseError::MsgEndMismatch => ("MsgEndMismatch", 15),
    }
}

// The refusal in words, and its number and place where they are asked for.
pub(crate) fn error(rt: &impl Print, f: Fault, places: bool) -> io::Result<()> {
    let (name, number) = told(f.error);
    print!(rt; "err {name}")?;
    if let ParseError::InvalidTlf(kind) = f.error {
        print!(rt; " {}", tlf_name(kind))?;
    }
    if places {
        print!(rt; " {number} @{}", f.place)?;
    }
    Ok(())
}
