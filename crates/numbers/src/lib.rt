// Ports parser/num.rs, eight widths and bool, and SmlParse of parser/mod.rs with its Option. `impl_num!` becomes an impl a width over `parse_num`: an impl that a macro writes would not be proved.
#![tactic(auto)]

ghost use Rattle.std.specs.Prelude.{cond, ◌&&◌, ◌≡◌, ◌+◌, ◌*◌, ◌-◌, ◌^◌, ◌≤◌, ◌<◌, true, eqb, length, get_or, Bool, ℕ, ℤ, List, IfSome};
ghost use Rattle.std.proofs.Math.Option.{Option};
ghost use Rattle.refusals.specs.Read.{Read};
ghost use Rattle.refusals.specs.Answers.{as_it_is, opt_of, reads_as};
ghost use Rattle.refusals.specs.declared.Span.{Span};
ghost use Rattle.octet_string.specs.Optional.{optional};
ghost use Rattle.octet_string.specs.Strings.{octets_at};
ghost use Rattle.tlf.specs.Lengths.{is_boolean};
ghost use Rattle.numbers.specs.Numbers.{number, is_number, fits_width, raw_from, raw_at, unsigned_at, signed_of, signed_at, bool_from, bool_at};
ghost use Rattle.numbers.specs.Answers.{raw};

use refusals::{ParseError, ResTy, Span};
use tlf::{Ty, TypeLengthField};

// SmlParse of parser/mod.rs: what can be read at any place of any input. It stands here since the impls of numbers do: an impl stands with its trait or its type.
pub trait SmlParse: Copy {
    // What a value says in document 01's words, and the rule that it is read by.
    ghost Meaning: { Type 0 };

    ghost means: { Self → Meaning };

    ghost read_at: { List ℕ → ℕ → Read Meaning };

    // The value that stands at `at`.
    fn parse(input: &[u8], at: usize) -> ResTy<Self>
        ensures { reads_as means result ≡ read_at input.now at };
}

// Option of parser/mod.rs: absent is the one byte 01.
impl<T: SmlParse> SmlParse for Option<T> {
    ghost Meaning = { Option T.Meaning };

    ghost means = { opt_of T.means };

    ghost read_at = { optional T.read_at };

    // A field that is there is read as its own type is.
    #[tactic(auto, unfolding(octet_string::specs::Optional::optional, octet_string::specs::Optional::absent_at, refusals::specs::Read::then))]
    fn parse(input: &[u8], at: usize) -> ResTy<Option<T>> {
        if octet_string::is_absent(input, at) {
            return Ok((None, at + 1));
        }
        let (value, next) = T::parse(input, at)?;
        Ok((Some(value), next))
    }
}

// A string is an octet string wherever a string is read.
impl SmlParse for Span {
    ghost Meaning = { Span };

    ghost means = { as_it_is };

    ghost read_at = { octets_at };

    // OctetStr of octet_string.rs.
    fn parse(input: &[u8], at: usize) -> ResTy<Span> {
        octet_string::parse_octet_str(input, at)
    }
}

// The bytes of a number: how many, and the number that they are.
#[derive(Clone, Copy)]
struct RawNum {
    len: u32,
    value: u64,
}

// from_be_bytes of the Rust: the number that the bytes are, high byte first. That they are at most eight, and `SIZE` too, stands in the clauses: no type of a const parameter can say it.
fn from_be_bytes(bytes: &[u8]) -> u64
    requires { length bytes.now ≤ 8 }
    ensures { result ≡ number 0 bytes.now }
{
    let mut value: u64 = 0;
    for b in bytes {
        value = value * 256 + *b as u64;
    }
    value
}

// check_tlf of impl_num: the type, at least one byte and at most as many as the number has.
fn check_tlf<const SIZE: u32, const IS_SIGNED: bool>(tlf: TypeLengthField) -> bool
    ensures { result ≡ fits_width IS_SIGNED SIZE tlf }
{
    let ty = if IS_SIGNED { Ty::Integer } else { Ty::Unsigned };
    tlf.ty == ty && 1 <= tlf.len && tlf.len <= SIZE
}

// parse_with_tlf of the Rust, before the sign.
#[tactic(auto, unfolding(crate::specs::Numbers::raw_from, crate::specs::Numbers::bytes_at_claim, refusals::specs::Read::then))]
fn take_num(input: &[u8], at: usize, len: u32) -> ResTy<RawNum>
    requires { len ≤ 8 }
    ensures { reads_as raw result ≡ raw_from input.now at len }
{
    let (_, next) = refusals::take_n(input, at, len as usize)?;
    let value = from_be_bytes(&input[at..next]);
    Ok((RawNum { len, value }, next))
}

// The bytes of a number that has one length byte and stands within the input; none for any other.
fn short_len<const SIZE: u32, const IS_SIGNED: bool>(input: &[u8], at: usize) -> Option<u32>
    ensures { IfSome result (λ len. (1 ≤ len) × (at + 1 + len ≤ length input.now) × (len ≤ SIZE) × (get_or input.now at 0 ≡ cond IS_SIGNED 0x51 0x61 + len)) }
{
    if input.len() <= at {
        return None;
    }
    let head: u8 = if IS_SIGNED { 0x51 } else { 0x61 };
    let len = input.get(at)?.checked_sub(head)? as u32;
    if len == 0 || SIZE < len || input.len() - at - 1 < len as usize {
        return None;
    }
    Some(len)
}

// A number behind any length field.
#[tactic(auto, unfolding(crate::specs::Numbers::raw_at, refusals::specs::Read::then, refusals::specs::Read::guard))]
fn parse_any<const SIZE: u32, const IS_SIGNED: bool>(input: &[u8], at: usize) -> ResTy<RawNum>
    requires { SIZE ≤ 8 }
    ensures { reads_as raw result ≡ raw_at IS_SIGNED SIZE input.now at }
{
    let (tlf, next) = TypeLengthField::parse(input, at)?;
    if !check_tlf::<SIZE, IS_SIGNED>(tlf) {
        return Err(ParseError::TlfMismatch.at(at));
    }
    take_num(input, next, tlf.len)
}

// parse_num of num.rs, before the sign.
fn parse_num<const SIZE: u32, const IS_SIGNED: bool>(input: &[u8], at: usize) -> ResTy<RawNum>
    requires { SIZE ≤ 8 }
    ensures { reads_as raw result ≡ raw_at IS_SIGNED SIZE input.now at }
{
    if let Some(len) = short_len::<SIZE, IS_SIGNED>(input, at) {
        let next = at + 1 + len as usize;
        let value = from_be_bytes(&input[at + 1..next]);
        return Ok((RawNum { len, value }, next));
    }
    parse_any::<SIZE, IS_SIGNED>(input, at)
}

// The signed number whose `len` bytes are the number `value`: the upper half is negative. A sum, as the rule has it: shifts up and down would say the same less plainly.
fn carry_sign(len: u32, value: u64) -> i64
    requires { (1 ≤ len) × (len ≤ 8) × (value < 256 ^ len) }
    ensures { result ≡ signed_of len value }
{
    let ones = u64::MAX >> (64 - 8 * len);
    if value <= ones / 2 {
        value as i64
    } else {
        -1 - (ones - value) as i64
    }
}

// parse_num of num.rs, without a sign: the bytes missing in front are zero.
#[tactic(auto, unfolding(crate::specs::Numbers::unsigned_at, refusals::specs::Read::then))]
fn parse_unsigned<const SIZE: u32>(input: &[u8], at: usize) -> ResTy<u64>
    requires { SIZE ≤ 8 }
    ensures { reads_as as_it_is result ≡ unsigned_at SIZE input.now at }
{
    let (num, next) = parse_num::<SIZE, false>(input, at)?;
    Ok((num.value, next))
}

// parse_num of num.rs, with a sign: the bytes missing in front are those of the sign.
#[tactic(auto, unfolding(crate::specs::Numbers::signed_at, refusals::specs::Read::then))]
fn parse_integer<const SIZE: u32>(input: &[u8], at: usize) -> ResTy<i64>
    requires { SIZE ≤ 8 }
    ensures { reads_as as_it_is result ≡ signed_at SIZE input.now at }
{
    let (num, next) = parse_num::<SIZE, true>(input, at)?;
    Ok((carry_sign(num.len, num.value), next))
}

// Whether a number of one byte stands at `at`, its length byte being `head`.
fn is_short(input: &[u8], at: usize, head: u8) -> bool
    ensures { result ≡ true → (at + 1 < length input.now) × (get_or input.now at 0 ≡ head) }
{
    at < input.len() && 1 < input.len() - at && input[at] == head
}

impl SmlParse for u8 {
    ghost Meaning = { ℕ };

    ghost means = { as_it_is };

    ghost read_at = { unsigned_at 1 };

    // u8 of impl_num. One length byte and one byte is by far the most frequent form, and goes by a short way.
    fn parse(input: &[u8], at: usize) -> ResTy<u8> {
        if is_short(input, at, 0x62) {
            return Ok((input[at + 1], at + 2));
        }
        let (value, next) = parse_unsigned::<1>(input, at)?;
        Ok((value as u8, next))
    }
}

impl SmlParse for u16 {
    ghost Meaning = { ℕ };

    ghost means = { as_it_is };

    ghost read_at = { unsigned_at 2 };

    // u16 of impl_num.
    fn parse(input: &[u8], at: usize) -> ResTy<u16> {
        let (value, next) = parse_unsigned::<2>(input, at)?;
        Ok((value as u16, next))
    }
}

impl SmlParse for u32 {
    ghost Meaning = { ℕ };

    ghost means = { as_it_is };

    ghost read_at = { unsigned_at 4 };

    // u32 of impl_num.
    fn parse(input: &[u8], at: usize) -> ResTy<u32> {
        let (value, next) = parse_unsigned::<4>(input, at)?;
        Ok((value as u32, next))
    }
}

impl SmlParse for u64 {
    ghost Meaning = { ℕ };

    ghost means = { as_it_is };

    ghost read_at = { unsigned_at 8 };

    // u64 of impl_num.
    fn parse(input: &[u8], at: usize) -> ResTy<u64> {
        parse_unsigned::<8>(input, at)
    }
}

impl SmlParse for i8 {
    ghost Meaning = { ℤ };

    ghost means = { as_it_is };

    ghost read_at = { signed_at 1 };

    // i8 of impl_num. The same short way.
    fn parse(input: &[u8], at: usize) -> ResTy<i8> {
        if is_short(input, at, 0x52) {
            return Ok((input[at + 1].cast_signed(), at + 2));
        }
        let (value, next) = parse_integer::<1>(input, at)?;
        Ok((value as i8, next))
    }
}

impl SmlParse for i16 {
    ghost Meaning = { ℤ };

    ghost means = { as_it_is };

    ghost read_at = { signed_at 2 };

    // i16 of impl_num.
    fn parse(input: &[u8], at: usize) -> ResTy<i16> {
        let (value, next) = parse_integer::<2>(input, at)?;
        Ok((value as i16, next))
    }
}

impl SmlParse for i32 {
    ghost Meaning = { ℤ };

    ghost means = { as_it_is };

    ghost read_at = { signed_at 4 };

    // i32 of impl_num.
    fn parse(input: &[u8], at: usize) -> ResTy<i32> {
        let (value, next) = parse_integer::<4>(input, at)?;
        Ok((value as i32, next))
    }
}

impl SmlParse for i64 {
    ghost Meaning = { ℤ };

    ghost means = { as_it_is };

    ghost read_at = { signed_at 8 };

    // i64 of impl_num.
    fn parse(input: &[u8], at: usize) -> ResTy<i64> {
        parse_integer::<8>(input, at)
    }
}

// check_tlf of bool: type Boolean, one byte.
fn is_bool(tlf: TypeLengthField) -> bool
    ensures { result ≡ (is_boolean tlf.ty && eqb tlf.len 1) }
{
    tlf.ty.is_boolean() && tlf.len == 1
}

// parse_with_tlf of bool: every byte over 0 is true.
#[tactic(auto, unfolding(crate::specs::Numbers::bool_from, refusals::specs::Read::then))]
fn take_bool(input: &[u8], at: usize) -> ResTy<bool>
    ensures { reads_as as_it_is result ≡ bool_from input.now at }
{
    let (b, next) = refusals::take_byte(input, at)?;
    Ok((b != 0, next))
}

impl SmlParse for bool {
    ghost Meaning = { Bool };

    ghost means = { as_it_is };

    ghost read_at = { bool_at };

    // bool of num.rs.
    #[tactic(auto, unfolding(crate::specs::Numbers::bool_at, refusals::specs::Read::then, refusals::specs::Read::guard))]
    fn parse(input: &[u8], at: usize) -> ResTy<bool> {
        let (tlf, next) = TypeLengthField::parse(input, at)?;
        if !is_bool(tlf) {
            return Err(ParseError::TlfMismatch.at(at));
        }
        take_bool(input, next)
    }
}
