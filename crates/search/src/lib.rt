// The search that a stray 1b doesn't fool (document 02, Q-7): how many bytes of the start sequence the last bytes are.
#![tactic(auto)]

ghost use Rattle.std.specs.Prelude.{◌≡◌, [], ◌∷◌, ◌++◌, take};
ghost use Rattle.frame.specs.Frame.{start_seq};
ghost use Rattle.search.specs.Search.{most_matched};

// How many start bytes the last bytes are, behind n of them and the byte b; 8: the start sequence is whole. Behind four 1b a fifth leaves four.
#[tactic(auto, using(crate::proofs::LastBytes::a_byte_more))]
pub fn advance(n: u8, b: u8) -> u8
    ensures { result ≡ most_matched (take n start_seq ++ b ∷ []) }
{
    // Tried: with a `match` on (b, n) the second way takes 13.0 instructions a byte on noise that is half 1b, with these tests 12.1, and 12 is the bar.
    if b == frame::ESC {
        if n < 4 {
            return n + 1;
        }
        return if n == 4 { 4 } else { 1 };
    }
    if b != 0x01 {
        return 0;
    }
    if n < 4 {
        return 0;
    }
    if n < 8 { n + 1 } else { 0 }
}
