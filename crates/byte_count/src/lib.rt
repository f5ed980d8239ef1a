// How many bytes a number needs; the crate has no writer and no such function.
#![tactic(auto)]

ghost use Rattle.std.specs.Prelude.{◌≡◌};
ghost use Rattle.byte_count.specs.Count.{unsigned_count};

// The fewest bytes, at least one, that hold x: from the leading zero bits.
#[tactic(auto, using(crate::proofs::Bytes::leading_count))]
pub fn byte_count(x: u64) -> u32
    ensures { result ≡ unsigned_count x }
{
    let bits = u64::BITS - x.leading_zeros();
    bits.div_ceil(8).max(1)
}
