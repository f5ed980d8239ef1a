// The command `tlf`: the length field at the input's start, its type, its length and the place behind it.
use super::fields::error;
use std::io;
use tlf::TypeLengthField;

// Its type by the number that a length byte has for it.
pub(crate) fn length_field(rt: &impl Print, input: &[u8]) -> io::Result<()> {
    match TypeLengthField::parse(input, 0) {
        Ok((tlf, next)) => print!(rt; "{} {} next {next}", tlf.ty as u8, tlf.len),
        Err(f) => error(rt, f, true),
    }
}
