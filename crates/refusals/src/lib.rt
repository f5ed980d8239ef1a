// What every reader shares: of parser/mod.rs the errors, the answer of a reading, and the taking of bytes; and the limit that document 01 sets.
// A place in the lent input stands for the Rust's rest of the input; refusals say the place, too.
#![tactic(auto)]

ghost use Rattle.std.specs.Prelude.{◌≡◌};
ghost use Rattle.refusals.specs.Read.{byte_at, span_at};
ghost use Rattle.refusals.specs.Answers.{refusal_of, fault_of, as_it_is, reads_as};
ghost use Rattle.refusals.specs.declared.ParseError.TheVariants.{InvalidTlf};

// The longest payload, buffer and message input.
pub const LIMIT: usize = 1_048_576;

#[derive(Clone, Copy, PartialEq, Eq)]
pub enum TlfParseError {
    TlfLengthOverflow,
    TlfReserved,
    TlfLengthUnderflow,
    TlfNextByteTypeMismatch,
    TlfInvalidTy,
}

#[derive(Clone, Copy, PartialEq, Eq)]
pub enum ParseError {
    UnexpectedEOF,
    InvalidTlf(TlfParseError),
    TlfMismatch,
    CrcMismatch,
    MsgEndMismatch,
    UnexpectedVariant,
}

impl From<TlfParseError> for ParseError {
    ghost from_gives = { λ kind error. error ≡ InvalidTlf kind };

    // As tlf.rs has it.
    fn from(kind: TlfParseError) -> ParseError {
        ParseError::InvalidTlf(kind)
    }
}

// What was wrong, and where.
#[derive(Clone, Copy, PartialEq, Eq)]
pub struct Fault {
    pub error: ParseError,
    pub place: usize,
}

impl ParseError {
    // The Rust's errors have no place.
    pub fn at(self, place: usize) -> Fault
        ensures { fault_of result ≡ refusal_of self place }
    {
        Fault { error: self, place }
    }
}

// Refusal 16: a span outside the input, or no payload in a buffer.
#[derive(Clone, Copy, PartialEq, Eq)]
pub struct BadSpan;

// A part of the input, by its place.
#[derive(Clone, Copy, PartialEq, Eq)]
pub struct Span {
    pub start: usize,
    pub len: usize,
}

// What a reading answers, as in parser/mod.rs: the value and the place behind it.
pub type ResTy<T> = Result<(T, usize), Fault>;

// take_byte of parser/mod.rs.
#[tactic(auto, unfolding(crate::specs::Read::byte_at, crate::specs::Read::guard))]
pub fn take_byte(input: &[u8], at: usize) -> ResTy<u8>
    ensures { reads_as as_it_is result ≡ byte_at input.now at }
{
    if input.len() <= at {
        return Err(ParseError::UnexpectedEOF.at(input.len()));
    }
    Ok((input[at], at + 1))
}

// take_n of parser/mod.rs: the count is tested against what is left, so that no sum wraps.
#[tactic(auto, unfolding(crate::specs::Read::span_at, crate::specs::Read::guard))]
pub fn take_n(input: &[u8], at: usize, n: usize) -> ResTy<Span>
    ensures { reads_as as_it_is result ≡ span_at input.now at n }
{
    if input.len() < at || input.len() - at < n {
        return Err(ParseError::UnexpectedEOF.at(input.len()));
    }
    Ok((Span { start: at, len: n }, at + n))
}
