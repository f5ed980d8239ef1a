// Ports parser/tlf.rs. A length over 32 bits, of which the Rust keeps the low ones, is refused here (document 02, Q-2).
#![tactic(auto)]

ghost use Rattle.std.specs.Prelude.{true, ◌&&◌, ◌≡◌, ◌+◌, ◌<◌, length, get_or, drop};
ghost use Rattle.refusals.specs.Read.{invalid_tlf};
ghost use Rattle.refusals.specs.Answers.{kind_of, fault_of, as_it_is, opt_of, reads_as};
ghost use Rattle.tlf.specs.Answers.{place_read};
ghost use Rattle.tlf.specs.Lengths.{ty_of, longer, length_from, less_own, tlf_at, is_list, is_boolean, is_list_of, list_of_at};

use refusals::{Fault, ParseError, ResTy, TlfParseError};

#[derive(Clone, Copy, PartialEq, Eq)]
pub enum Ty {
    OctetString = 0,
    Boolean = 4,
    Integer = 5,
    Unsigned = 6,
    ListOf = 7,
}

impl Ty {
    // Ty::from_byte of tlf.rs.
    fn from_byte(bits: u8) -> Option<Ty>
        ensures { opt_of as_it_is result ≡ ty_of bits }
    {
        match bits {
            0 => Some(Ty::OctetString),
            4 => Some(Ty::Boolean),
            5 => Some(Ty::Integer),
            6 => Some(Ty::Unsigned),
            7 => Some(Ty::ListOf),
            _ => None,
        }
    }

    // The test `ty == Ty::ListOf` of tlf.rs. Public for message.
    pub fn is_list(self) -> bool
        ensures { result ≡ is_list self }
    {
        self == Ty::ListOf
    }

    // The test `ty == Ty::Boolean` of tlf.rs. Public for numbers.
    pub fn is_boolean(self) -> bool
        ensures { result ≡ is_boolean self }
    {
        self == Ty::Boolean
    }
}

#[derive(Clone, Copy, PartialEq, Eq)]
pub struct TypeLengthField {
    pub ty: Ty,
    pub len: u32,
}

// `From<TlfParseError> for ParseError` of tlf.rs, and the place: the element's first length byte.
fn invalid(kind: TlfParseError, place: usize) -> Fault
    ensures { fault_of result ≡ invalid_tlf (kind_of kind) place }
{
    ParseError::from(kind).at(place)
}

// The length so far with the next byte's four bits behind it, which may be more than 32 bits hold.
fn next_len(len: u32, b: u8) -> u64
    ensures { result ≡ longer len b }
{
    len as u64 * 16 + b as u64 % 16
}

// The loop of the Rust's parse, a `while` as there, since each byte says whether more follow: the further length bytes of the element at `start`.
#[tactic(auto, unfolding(refusals::specs::Read::byte_at, refusals::specs::Read::guard), using(crate::proofs::Lengths::length_stop, crate::proofs::Lengths::length_cut, crate::proofs::Lengths::length_next))]
fn more_bytes(input: &[u8], start: usize, at: usize, more: bool, first: u32) -> ResTy<u32>
    ensures { reads_as as_it_is result ≡ length_from (length input.now) start (drop at input.now) at more first }
{
    let mut has_more_bytes = more;
    let mut len = first;
    let mut next = at;
    while has_more_bytes {
        let (b, after) = refusals::take_byte(input, next)?;
        if b / 16 % 8 != 0 {
            return Err(invalid(TlfParseError::TlfNextByteTypeMismatch, start));
        }
        let Ok(longer) = u32::try_from(next_len(len, b)) else {
            return Err(invalid(TlfParseError::TlfLengthOverflow, start));
        };
        len = longer;
        has_more_bytes = 128 <= b;
        next = after;
    }
    Ok((len, next))
}

// For primitive types the length counts its own bytes, all of them, and they are taken off here.
#[tactic(auto, unfolding(crate::specs::Lengths::less_own, refusals::specs::Read::guard))]
fn less_own(ty: Ty, own: usize, len: u32, start: usize, next: usize) -> ResTy<TypeLengthField>
    ensures { reads_as as_it_is result ≡ less_own ty own len start next }
{
    if ty.is_list() {
        return Ok((TypeLengthField { ty, len }, next));
    }
    if (len as usize) < own {
        return Err(invalid(TlfParseError::TlfLengthUnderflow, start));
    }
    let len = len - own as u32;
    Ok((TypeLengthField { ty, len }, next))
}

impl TypeLengthField {
    // The type and length that stand at `at`. A Boolean with more length bytes is reserved for future usages.
    #[tactic(auto, unfolding(crate::specs::Lengths::tlf_at, refusals::specs::Read::then, refusals::specs::Read::guard, refusals::specs::Read::need))]
    pub fn parse(input: &[u8], at: usize) -> ResTy<TypeLengthField>
        ensures { reads_as as_it_is result ≡ tlf_at input.now at }
    {
        let (b, next) = refusals::take_byte(input, at)?;
        let Some(ty) = Ty::from_byte(b / 16 % 8) else {
            return Err(invalid(TlfParseError::TlfInvalidTy, at));
        };
        let has_more_bytes = 128 <= b;
        if ty.is_boolean() && has_more_bytes {
            return Err(invalid(TlfParseError::TlfReserved, at));
        }
        let (len, end) = more_bytes(input, at, next, has_more_bytes, (b % 16) as u32)?;
        let tlf_len = end - at;
        less_own(ty, tlf_len, len, at, end)
    }

    // The test of every structure of SML: a list of so many elements. Public for value.
    pub fn is_list_of(self, n: u32) -> bool
        ensures { result ≡ is_list_of n self }
    {
        self.ty.is_list() && self.len == n
    }
}

// Whether the head of a list of `n` elements is the one byte 70 + n, as nearly every list of a meter has it.
fn is_short_list(input: &[u8], at: usize, n: u32) -> bool
    ensures { result ≡ true → (at < length input.now) × (n < 16) × (get_or input.now at 0 ≡ 0x70 + n) }
{
    at < input.len() && n < 16 && input[at] as u32 == 0x70 + n
}

// The head of a list of `n` elements: check_tlf of the Rust's structures. Public for the crates that read them.
#[tactic(auto, unfolding(crate::specs::Lengths::list_of_at, refusals::specs::Read::then, refusals::specs::Read::guard), using(crate::proofs::Short::list_of_one))]
pub fn parse_list_of(input: &[u8], at: usize, n: u32) -> Result<usize, Fault>
    ensures { place_read result ≡ list_of_at n input.now at }
{
    if is_short_list(input, at, n) {
        return Ok(at + 1);
    }
    let (tlf, next) = TypeLengthField::parse(input, at)?;
    if tlf.is_list_of(n) {
        Ok(next)
    } else {
        Err(ParseError::TlfMismatch.at(at))
    }
}
