// CRC_X25 of util.rs: the register is a number that callers keep, and `digest` gives the first one. Its bits go out four at a time, by a table of sixteen numbers.
#![tactic(auto)]

ghost use Rattle.std.specs.Prelude.{◌≡◌};
ghost use Rattle.std.specs.List.{concat};
ghost use Rattle.crc_x25.specs.Crc.{start, bit_steps, byte_step, register, final_xor, crc_of};

// What the register is before any byte.
pub const INIT: u16 = 0xffff;

// What the register is xored with at the end.
const XOR_OUT: u16 = 0xffff;

// Entry i is what four single bits of i come to. 64 bits wide, as the register is while bytes go through it.
static TABLE: [u64; 16] = [
    0x0000, 0x1081, 0x2102, 0x3183, 0x4204, 0x5285, 0x6306, 0x7387, 0x8408, 0x9489, 0xa50a, 0xb58b,
    0xc60c, 0xd68d, 0xe70e, 0xf78f,
];

// The register before any byte: `CRC_X25.digest()` of the Rust. Public for encoder.
pub fn digest() -> u16
    ensures { result ≡ start }
{
    INIT
}

// The register after its four lowest bits: what stands above them comes down, xored with their entry.
#[tactic(auto, using(crate::proofs::Fours::by_table))]
fn four_bits(reg: u64) -> u64
    ensures { result ≡ bit_steps 4 reg }
{
    let low = (reg % 16) as usize;
    (reg / 16) ^ TABLE[low]
}

// The register after its eight lowest bits.
#[tactic(auto, using(crate::proofs::Fours::bits_more))]
fn eight_bits(reg: u64) -> u64
    ensures { result ≡ bit_steps 8 reg }
{
    four_bits(four_bits(reg))
}

// The register after one byte.
#[tactic(auto, unfolding(crate::specs::Crc::byte_step))]
fn one_byte(reg: u64, b: u8) -> u64
    ensures { result ≡ byte_step reg b }
{
    eight_bits(reg ^ (b as u64))
}

// The register after eight bytes. They are brought in as one number: while a byte goes out, those behind it come down.
#[tactic(auto, using(crate::proofs::Fours::eight_more))]
fn eight_at_once(reg: u64, bytes: [u8; 8]) -> u64
    ensures { result ≡ register reg bytes }
{
    let word = u64::from_le_bytes(bytes);
    let mut r = reg ^ word;
    for _ in 0..8u8 {
        r = eight_bits(r);
    }
    r
}

// The register after one byte. Public for encoder, which writes byte by byte.
#[tactic(auto, using(crate::proofs::Laws::byte_fits))]
pub fn update_byte(reg: u16, b: u8) -> u16
    ensures { result ≡ byte_step reg b }
{
    one_byte(reg as u64, b) as u16
}

// The register after all bytes of `eights`, eight a turn.
#[tactic(auto, using(crate::proofs::Laws::register_none, crate::proofs::Fours::chunk_more))]
fn by_eights(reg: u64, eights: &[[u8; 8]]) -> u64
    ensures { result ≡ register reg (concat eights.now) }
{
    let mut r = reg;
    for eight in eights {
        r = eight_at_once(r, *eight);
    }
    r
}

// The register after the bytes of `s`, one a turn: no twin of the other, whose turn is eight bytes in one number.
#[tactic(auto, using(crate::proofs::Laws::register_none, crate::proofs::Fours::register_more))]
fn one_by_one(reg: u64, s: &[u8]) -> u64
    ensures { result ≡ register reg s.now }
{
    let mut r = reg;
    for b in s {
        r = one_byte(r, *b);
    }
    r
}

// The register after all bytes of `s`.
#[tactic(auto, using(crate::proofs::Fours::in_chunks, crate::proofs::Laws::register_fits))]
pub fn update(reg: u16, s: &[u8]) -> u16
    ensures { result ≡ register reg s.now }
{
    let (eights, rest) = s.as_chunks::<8>();
    one_by_one(by_eights(reg as u64, eights), rest) as u16
}

// The check value of a register.
#[tactic(auto, unfolding(crate::specs::Crc::final_xor))]
pub fn finalize(reg: u16) -> u16
    ensures { result ≡ final_xor reg }
{
    reg ^ XOR_OUT
}

// The check value of all bytes of `s`.
#[tactic(auto, unfolding(crate::specs::Crc::crc_of))]
pub fn checksum(s: &[u8]) -> u16
    ensures { result ≡ crc_of s.now }
{
    finalize(update(digest(), s))
}
