// Ports parser/octet_string.rs. A span stands for the Rust's OctetStr.
#![tactic(auto)]

ghost use Rattle.std.specs.Prelude.{◌≡◌, ◌+◌, ◌≤◌, ◌<◌, length, get_or, IfSome};
ghost use Rattle.decided.specs.Part.{handed, part_at};
ghost use Rattle.refusals.specs.Answers.{as_it_is, reads_as};
ghost use Rattle.octet_string.specs.Strings.{is_octets, octets_at, span_within, part_of, part_start, span_refusal};
ghost use Rattle.octet_string.specs.Optional.{absent_at};
ghost use Rattle.octet_string.specs.Answers.{span_check};

use refusals::{BadSpan, ParseError, ResTy, Span};
use tlf::{Ty, TypeLengthField};

// check_tlf of OctetStr: the type alone.
fn check_tlf(tlf: TypeLengthField) -> bool
    ensures { result ≡ is_octets tlf.ty }
{
    tlf.ty == Ty::OctetString
}

// The bytes of a string that has one length byte and stands within the input, its length byte with them; none for any other.
fn short_string(input: &[u8], at: usize) -> Option<usize>
    ensures { IfSome result (λ own. (1 ≤ own) × (at + own ≤ length input.now) × (own < 16) × (get_or input.now at 0 ≡ own)) }
{
    let own = *input.get(at)? as usize;
    if own == 0 || 15 < own || input.len() - at < own {
        return None;
    }
    Some(own)
}

// OctetStr of octet_string.rs: where the string stands, by a short way behind one length byte.
#[tactic(auto, unfolding(crate::specs::Strings::octets_at, refusals::specs::Read::then, refusals::specs::Read::guard))]
pub fn parse_octet_str(input: &[u8], at: usize) -> ResTy<Span>
    ensures { reads_as as_it_is result ≡ octets_at input.now at }
{
    if let Some(own) = short_string(input, at) {
        return Ok((
            Span {
                start: at + 1,
                len: own - 1,
            },
            at + own,
        ));
    }
    let (tlf, next) = TypeLengthField::parse(input, at)?;
    if !check_tlf(tlf) {
        return Err(ParseError::TlfMismatch.at(at));
    }
    refusals::take_n(input, next, tlf.len as usize)
}

// Whether a span lies within the input; start plus length is never formed, since it could wrap.
#[tactic(auto, unfolding(crate::specs::Strings::span_within))]
fn is_within(input: &[u8], span: Span) -> bool
    ensures { result ≡ span_within input.now span }
{
    span.start <= input.len() && span.len <= input.len() - span.start
}

// The part of the input that a span is; a bad span has the empty part at the input's start, and check_span says that it is bad.
pub fn octet_str<'i>(input: &'i [u8], span: Span) -> &'i [u8]
    ensures { handed result ≡ part_at (handed input.entry) (part_start input.now span) (part_of input.now span) }
{
    let start = span.start;
    let len = span.len;
    if is_within(input, span) {
        &input[start..start + len]
    } else {
        &input[0..0]
    }
}

// The separate question behind an empty part: refusal 16 for a span outside the input.
#[tactic(auto, unfolding(crate::specs::Strings::span_refusal))]
pub fn check_span(input: &[u8], span: Span) -> Result<(), BadSpan>
    ensures { span_check result ≡ span_refusal input.now span }
{
    if is_within(input, span) {
        Ok(())
    } else {
        Err(BadSpan)
    }
}

// Whether an optional field is absent, whatever its type: `Some(0x01u8) = input.first()` of the Rust.
#[tactic(auto, unfolding(crate::specs::Optional::absent_at))]
pub fn is_absent(input: &[u8], at: usize) -> bool
    ensures { result ≡ absent_at input.now at }
{
    at < input.len() && input[at] == 0x01
}
