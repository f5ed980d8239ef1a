// A push of many bytes at once. Only the bytes that may end a state are pushed one by one; the stretches between them change counts and the buffer alone.
#![tactic(auto)]

ghost use Rattle.std.specs.Prelude.{◌≡◌, [], false, ℕ, ◌+◌, ◌-◌, ◌%◌, ◌<◌, ◌≤◌, ◌^◌, length, slice_index_or};
ghost use Rattle.decoder.specs.declared.DecodeState.TheVariants.{LookingForMessageStart, ParsingNormal, ParsingEscChars, ParsingEscPayload};
ghost use Rattle.decoder.specs.Push.{first_way, second_way, stopped};
ghost use Rattle.decoder.specs.Record.{answer_of, bad_decoder, wrong_buffer};
ghost use Rattle.decoder_slice.specs.Slice.{after_slice, says_nothing, pushes_from, slice_record};
ghost use Rattle.decoder.specs.Cut.{in_state};
ghost use Rattle.decoder_slice.specs.Stretch.{moved_by, FrameWithBuffer, Searches, WithinChunk, Reaches, PassesOver, Plain, Escapes};

use decoder::{DecodeErr, DecodeState, Decoder, Event};

// What a push of a slice gives: the first event, and how many bytes were taken up to and with the one that brought it.
#[derive(Clone, Copy)]
pub struct Sliced {
    pub decoder: Decoder,
    pub event: Event,
    pub taken: usize,
}

// A decoder, and the place in the chunk that it has reached.
#[derive(Clone, Copy)]
struct Stretch {
    decoder: Decoder,
    at: usize,
}

// Whether a push of the chunk goes on behind this event.
fn says_nothing(e: Event) -> bool
    ensures { result ≡ says_nothing (answer_of e []) }
{
    matches!(e, Ok(false))
}

// k more, or as many as 32 bits hold.
fn more(x: u32, k: usize) -> u32
    ensures { result ≡ stopped (x + k) }
{
    (x as usize)
        .saturating_add(k)
        .min(decoder::COUNT_STOP as usize) as u32
}

// d behind k bytes of which j were stored.
fn moved_by(d: Decoder, j: usize, k: usize, s: DecodeState) -> Decoder
    requires { d.fill + j < 2 ^ 64 }
    ensures { result ≡ moved_by d j k s }
{
    decoder::recounted(d, d.fill + j, more(d.raw_msg_len, k), s)
}

// How many of these fours stand before the first that has a 1b.
fn fours_before_escape(fours: &[[u8; 4]]) -> usize
    ensures { (result ≤ length fours.now) × ((j : ℕ) → j < result → Plain (slice_index_or fours.now j []) 0 4) }
{
    fours
        .iter()
        .position(|f| f.contains(&Decoder::ESC))
        .unwrap_or(fours.len())
}

// Four bytes a turn, as long as none of them is 1b.
fn plain_fours(part: &[u8]) -> usize
    ensures { (result ≤ length part.now) × Plain part.now 0 result }
{
    let (fours, _) = part.as_chunks::<4>();
    4 * fours_before_escape(fours)
}

// The place of the first 1b in from..to, or `to`, a byte a turn: for stretches that are mostly short.
fn plain_ones(chunk: &[u8], from: usize, to: usize) -> usize
    requires { WithinChunk chunk.now from to }
    ensures { (from ≤ result) × (result ≤ to) × Plain chunk.now from result }
{
    let mut k = from;
    // Tried: on noise that is half 1b the second way takes 13.2 instructions a byte with `position`, 12.1 with this loop, and 12 is the bar.
    while k < to {
        if chunk[k] == Decoder::ESC {
            break;
        }
        k += 1;
    }
    k
}

// The same for stretches that are mostly long.
fn plain_end(chunk: &[u8], from: usize, to: usize) -> usize
    requires { WithinChunk chunk.now from to }
    ensures { (from ≤ result) × (result ≤ to) × Plain chunk.now from result }
{
    let k = from + plain_fours(&chunk[from..to]);
    plain_ones(chunk, k, to)
}

// `part` goes to `out`. Not by `copy_from_slice`: with a length known only at run time that calls memmove, which the archive for C would need from outside, and among many 1b most parts have a byte or none.
fn copy_part(out: &mut [u8], part: &[u8])
    requires { length part.now ≡ length out.old }
    ensures { out.new ≡ part.now }
{
    for (i, b) in out.iter_mut().enumerate() {
        *b = part[i];
    }
}

// The bytes from `from` on that are no 1b, as many as there is room for, go to the buffer. Chunk and place travel together: lent as the part from there on, each turn would need a law that moves the definition to that part, which was not written.
fn store_plain(d: Decoder, buf: &mut [u8], chunk: &[u8], from: usize) -> Stretch
    requires { FrameWithBuffer d 0 (length buf.old) × (from ≤ length chunk.now) }
    ensures { Reaches result buf.new (in_state d ParsingNormal) buf.old chunk.now from }
{
    let most = (chunk.len() - from).min(buf.len() - d.fill);
    let to = plain_end(chunk, from, from + most);
    let k = to - from;
    copy_part(&mut buf[d.fill..d.fill + k], &chunk[from..to]);
    Stretch {
        decoder: moved_by(d, k, k, DecodeState::ParsingNormal),
        at: to,
    }
}

// How many of these fives stand before the first that is not all 1b.
fn fives_of_escapes(fives: &[[u8; 5]]) -> usize
    ensures { (result ≤ length fives.now) × ((j : ℕ) → j < result → Escapes (slice_index_or fives.now j []) 0 5) }
{
    fives
        .iter()
        .position(|f| *f != [Decoder::ESC; 5])
        .unwrap_or(fives.len())
}

// Five bytes a turn, as long as all of them are 1b: behind four matched ones a fifth is noise, and the four behind it match again.
fn fives_end(chunk: &[u8], from: usize) -> usize
    requires { from ≤ length chunk.now }
    ensures { (from ≤ result) × (result ≤ length chunk.now) × ((result - from) % 5 ≡ 0) × Escapes chunk.now from result }
{
    let (fives, _) = chunk[from..].as_chunks::<5>();
    from + 5 * fives_of_escapes(fives)
}

// Where the run of 1b from `from` on ends, or `to`.
fn escapes_end(chunk: &[u8], from: usize, to: usize) -> usize
    requires { WithinChunk chunk.now from to }
    ensures { (from ≤ result) × (result ≤ to) × Escapes chunk.now from result }
{
    let mut k = from;
    // Tried: as in plain_ones, `position` misses the bar.
    while k < to {
        if chunk[k] != Decoder::ESC {
            break;
        }
        k += 1;
    }
    k
}

// A search behind k more bytes, with q matched then and n before. Matched bytes and noise are all the bytes there are.
fn searched(d: Decoder, noise: u32, n: u8, q: u8, from: usize, k: usize) -> Stretch
    requires { (d.fill ≡ 0) × (n + k < 2 ^ 64) × (q ≤ n + k) × (from + k < 2 ^ 64) }
    ensures { (result.decoder ≡ moved_by d 0 k (LookingForMessageStart q (stopped (noise + (n + k - q))))) × (result.at ≡ from + k) }
{
    let all = more(noise, (n as usize) + k - (q as usize));
    let state = DecodeState::LookingForMessageStart {
        num_discarded_bytes: all,
        num_init_seq_bytes: q,
    };
    Stretch {
        decoder: moved_by(d, 0, k, state),
        at: from + k,
    }
}

// The bytes of a search from `from` on, up to the last of a start sequence, in the first way.
fn search_first(d: Decoder, noise: u32, n: u8, chunk: &[u8], from: usize) -> Stretch
    requires { Searches d n × (d.way ≡ first_way) × (from ≤ length chunk.now) }
    ensures { PassesOver result d (LookingForMessageStart n noise) chunk.now from }
{
    let left = chunk.len() - from;
    let mut k = 0;
    let mut q = n;
    // A turn may take many bytes, so no `for` counts them.
    while k < left {
        if decoder::matching(q, chunk[from + k]) {
            if q == 7 {
                break;
            }
            q += 1;
            k += 1;
            if q == 4 {
                k = fives_end(chunk, from + k) - from;
            }
        } else {
            // Nothing is matched now, so all bytes up to the next 1b are noise.
            q = 0;
            k = plain_end(chunk, from + (k + 1), chunk.len()) - from;
        }
    }
    searched(d, noise, n, q, from, k)
}

// The same in the second way, in which a 1b may be the first of a start sequence whatever was matched.
fn search_second(d: Decoder, noise: u32, n: u8, chunk: &[u8], from: usize) -> Stretch
    requires { Searches d n × (d.way ≡ second_way) × (from ≤ length chunk.now) }
    ensures { PassesOver result d (LookingForMessageStart n noise) chunk.now from }
{
    let left = chunk.len() - from;
    let mut k = 0;
    let mut q = n;
    // As in the first way, a turn may take many bytes.
    while k < left {
        let next = search::advance(q, chunk[from + k]);
        if next == 8 {
            break;
        }
        q = next;
        k += 1;
        if q == 0 {
            // As in the first way, but byte by byte: among many 1b the fours' turns cost more than they save.
            k = plain_ones(chunk, from + k, chunk.len()) - from;
        } else if q == 4 {
            // Behind four matched ones a further 1b leaves four.
            k = escapes_end(chunk, from + k, chunk.len()) - from;
        }
    }
    searched(d, noise, n, q, from, k)
}

// The same in the decoder's way.
fn search_more(d: Decoder, noise: u32, n: u8, chunk: &[u8], from: usize) -> Stretch
    requires { Searches d n × (from ≤ length chunk.now) }
    ensures { PassesOver result d (LookingForMessageStart n noise) chunk.now from }
{
    if d.way == Decoder::SECOND_WAY {
        search_second(d, noise, n, chunk, from)
    } else {
        search_first(d, noise, n, chunk, from)
    }
}

// More 1b, up to three.
fn wait_more(d: Decoder, n: u8, chunk: &[u8], from: usize) -> Stretch
    requires { FrameWithBuffer d 0 d.capacity × (1 ≤ n) × (n ≤ 3) × (from ≤ length chunk.now) }
    ensures { PassesOver result d (ParsingEscChars n) chunk.now from }
{
    let most = (chunk.len() - from).min((3 - n) as usize);
    let to = escapes_end(chunk, from, from + most);
    let k = to - from;
    Stretch {
        decoder: moved_by(d, 0, k, DecodeState::ParsingEscChars(n + k as u8)),
        at: to,
    }
}

// The bytes behind an escape, up to three.
fn put_judged(d: Decoder, n: u8, buf: &mut [u8], chunk: &[u8], from: usize) -> Stretch
    requires { FrameWithBuffer d n (length buf.old) × (n ≤ 3) × (from ≤ length chunk.now) }
    ensures { Reaches result buf.new (in_state d (ParsingEscPayload n)) buf.old chunk.now from }
{
    let most = (chunk.len() - from).min(buf.len() - d.fill);
    let k = most.min((3 - n) as usize);
    copy_part(&mut buf[d.fill..d.fill + k], &chunk[from..from + k]);
    Stretch {
        decoder: moved_by(d, k, k, DecodeState::ParsingEscPayload(n + k as u8)),
        at: from + k,
    }
}

// The bytes from `from` on that change nothing but counts and the buffer. A search whose register isn't ffff yet gets it from a single push.
fn ahead(d: Decoder, buf: &mut [u8], chunk: &[u8], from: usize) -> Stretch
    requires { (bad_decoder d ≡ false) × (wrong_buffer d.capacity (length buf.old) ≡ false) × (from < length chunk.now) }
    ensures { Reaches result buf.new d buf.old chunk.now from }
{
    match d.state {
        DecodeState::LookingForMessageStart {
            num_discarded_bytes,
            num_init_seq_bytes,
        } => {
            if d.crc == crc_x25::INIT {
                return search_more(d, num_discarded_bytes, num_init_seq_bytes, chunk, from);
            }
            Stretch {
                decoder: d,
                at: from,
            }
        }
        DecodeState::ParsingNormal => store_plain(d, buf, chunk, from),
        DecodeState::ParsingEscChars(n) => wait_more(d, n, chunk, from),
        DecodeState::ParsingEscPayload(n) => put_judged(d, n, buf, chunk, from),
        DecodeState::Done => {
            // The next byte begins a fresh search, and reset makes its record.
            search_more(d.reset().decoder, 0, 0, chunk, from)
        }
    }
}

// Bytes pushed one after another, up to and with the one that brings the first event. Record and buffer were judged before, and a push that says nothing leaves them good.
fn until_event(d: Decoder, buf: &mut [u8], chunk: &[u8]) -> Sliced
    requires { (bad_decoder d ≡ false) × (wrong_buffer d.capacity (length buf.old) ≡ false) }
    ensures { after_slice result buf.new ≡ pushes_from 0 d buf.old chunk.now }
{
    let mut now = d;
    let mut i = 0;
    // A turn takes a stretch of any length and a byte behind it, so no `for` counts them.
    while i < chunk.len() {
        let a = ahead(now, buf, chunk, i);
        now = a.decoder;
        i = a.at;
        if i < chunk.len() {
            let p = decoder::push_any(now, buf, chunk[i]);
            now = p.decoder;
            i += 1;
            if !says_nothing(p.event) {
                return Sliced {
                    decoder: now,
                    event: p.event,
                    taken: i,
                };
            }
        }
    }
    Sliced {
        decoder: now,
        event: Ok(false),
        taken: i,
    }
}

// Pushes bytes until the first event. The checks of record and buffer come first, as in a push; a refusal takes no byte.
pub fn push_slice(d: Decoder, buf: &mut [u8], chunk: &[u8]) -> Sliced
    ensures { after_slice result buf.new ≡ slice_record d buf.old chunk.now }
{
    if decoder::bad_decoder(d) {
        return Sliced {
            decoder: d,
            event: Err(DecodeErr::BadState),
            taken: 0,
        };
    }
    if decoder::wrong_buffer(d.capacity, buf.len()) {
        return Sliced {
            decoder: d,
            event: Err(DecodeErr::WrongBuffer),
            taken: 0,
        };
    }
    until_event(d, buf, chunk)
}
