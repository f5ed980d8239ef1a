// Decoder of transport.rs, by value: a byte a push, into a buffer that is lent at each call.
#![tactic(auto)]

ghost use Rattle.std.specs.Prelude.{◌≡◌, [], ◌∷◌, ◌++◌, false, suc, ◌+◌, ◌*◌, ◌^◌, ◌<◌, ◌≤◌, length, replicate};
ghost use Rattle.std.proofs.lemmas.List.Edits.{sets};
ghost use Rattle.decided.specs.Part.{handed, part_at};
ghost use Rattle.decoder.specs.Push.{in_way, sized, stopped, starts, matched_behind, more_noise, searching, begun, search, early};
ghost use Rattle.decoder.specs.Record.{setup, record_with, recounted, record_of, after_push, after_finalize, after_reset, answer_asked, unknown_way, bad_in, bad_decoder, wrong_buffer, new_record, push_record, finalize_record, reset_record, payload_record, ask_record};
ghost use Rattle.decoder.specs.Cut.{FrameHeld, code, cut, stored_on, pushed_on, in_state, quiet, fresh_with, normal_step, escape_at, wait_step, sound, verdict, end_step, other_step, judge_step, escape_step, plain_byte_claim, payload_in};

use refusals::BadSpan;

#[derive(Clone, Copy, PartialEq, Eq)]
pub enum DecodeState {
    LookingForMessageStart {
        num_init_seq_bytes: u8,
        num_discarded_bytes: u32,
    },
    ParsingNormal,
    ParsingEscChars(u8),
    ParsingEscPayload(u8),
    Done,
}

// Where the counts of noise and raw bytes stop: as many as 32 bits hold.
pub const COUNT_STOP: u32 = 4_294_967_295;

// What never changes of a decoder: its capacity, and its way of searching for a start sequence.
#[derive(Clone, Copy)]
pub struct Setup {
    pub capacity: usize,
    pub way: u8,
}

#[derive(Clone, Copy, PartialEq, Eq)]
pub struct Decoder {
    pub capacity: usize,
    pub fill: usize,
    pub raw_msg_len: u32,
    pub crc: u16,
    pub way: u8,
    pub crc_idx: usize,
    pub state: DecodeState,
}

// The Rust's DecodeErr, and the refusals of a record or buffer that doesn't fit.
#[derive(Clone, Copy, PartialEq, Eq)]
pub enum DecodeErr {
    DiscardedBytes(u32),
    // Its four bytes, one by one: the logic knows no length of an array in an enum, and laws of the lines need it.
    InvalidEsc(u8, u8, u8, u8),
    OutOfMemory,
    InvalidMessage {
        read_crc: u16,
        calculated_crc: u16,
        misaligned: bool,
        num_padding_bytes: u8,
    },
    BadState,
    WrongBuffer,
}

// What a push or finalize says, as the Rust's _push_byte: `Ok(true)`: a payload stands in the buffer; `Ok(false)`: nothing to say.
pub type Event = Result<bool, DecodeErr>;

#[derive(Clone, Copy)]
pub struct Pushed {
    pub decoder: Decoder,
    pub event: Event,
}

#[derive(Clone, Copy)]
pub struct Finalized {
    pub decoder: Decoder,
    pub event: Event,
}

#[derive(Clone, Copy)]
pub struct AfterReset {
    pub decoder: Decoder,
    pub count: u32,
}

impl Decoder {
    // The byte that escapes are made of.
    pub const ESC: u8 = frame::ESC;

    // The length of the start sequence, with which a frame's raw length begins.
    pub const START_LEN: u32 = 8;

    // The bytes behind an escape, which are stored and judged together.
    pub const ESC_PAYLOAD_LEN: usize = 4;

    // The ways of searching: the Rust's, in which nothing is matched behind a byte that doesn't match, and one that a stray 1b doesn't fool (document 02, Q-7).
    // Any number may come in, and an unknown one is refused as BadState: so the way is a number, and no enum.
    pub const FIRST_WAY: u8 = 1;

    pub const SECOND_WAY: u8 = 2;

    // Decoder::new of transport.rs: nothing is seen yet.
    pub fn new(capacity: usize) -> Decoder
        ensures { result ≡ new_record (sized capacity) }
    {
        Decoder::with_way(capacity, Decoder::FIRST_WAY)
    }

    // The same in a way of searching. An unknown one is taken, as a capacity over the limit is: a push refuses it.
    pub fn with_way(capacity: usize, way: u8) -> Decoder
        ensures { result ≡ new_record (in_way way capacity) }
    {
        new_record(Setup { capacity, way })
    }
}

// What never changes of a decoder, from its record.
fn setup_of(d: Decoder) -> Setup
    ensures { result ≡ setup d }
{
    Setup {
        capacity: d.capacity,
        way: d.way,
    }
}

// The one place where a record is made: of the setup, and what a push may change.
fn made(
    c: Setup,
    fill: usize,
    raw_msg_len: u32,
    crc: u16,
    crc_idx: usize,
    state: DecodeState,
) -> Decoder
    ensures { result ≡ record_with c fill raw_msg_len crc crc_idx state }
{
    Decoder {
        capacity: c.capacity,
        fill,
        raw_msg_len,
        crc,
        way: c.way,
        crc_idx,
        state,
    }
}

// A search that has seen nothing.
fn new_record(c: Setup) -> Decoder
    ensures { result ≡ new_record c }
{
    made(
        c,
        0,
        0,
        crc_x25::INIT,
        0,
        DecodeState::LookingForMessageStart {
            num_discarded_bytes: 0,
            num_init_seq_bytes: 0,
        },
    )
}

// The record with other counts, in another state. A push of a slice makes its records by this.
pub fn recounted(d: Decoder, fill: usize, raw: u32, s: DecodeState) -> Decoder
    ensures { result ≡ recounted d fill raw s }
{
    made(setup_of(d), fill, raw, d.crc, d.crc_idx, s)
}

// One more, or as many as 32 bits hold.
fn one_more(x: u32) -> u32
    ensures { result ≡ stopped (suc x) }
{
    x.saturating_add(1)
}

// The noise behind n matched bytes and one more, of which k are matched then, or as many as 32 bits hold.
fn more_noise(noise: u32, n: u8, k: u8) -> u32
    requires { k ≤ suc n }
    ensures { result ≡ more_noise noise n k }
{
    noise.saturating_add((n as u32) + 1 - (k as u32))
}

// No event.
fn quiet(d: Decoder) -> Pushed
    ensures { result ≡ quiet d }
{
    Pushed {
        decoder: d,
        event: Ok(false),
    }
}

// Fresh again, with an event.
fn fresh_with(c: Setup, e: Event) -> Pushed
    ensures { result ≡ fresh_with c e }
{
    Pushed {
        decoder: new_record(c),
        event: e,
    }
}

// The same counts in another state.
fn in_state(d: Decoder, s: DecodeState) -> Decoder
    ensures { result ≡ in_state d s }
{
    recounted(d, d.fill, d.raw_msg_len, s)
}

// One byte more pushed, and none stored.
fn pushed_on(d: Decoder, s: DecodeState) -> Decoder
    ensures { result ≡ pushed_on d s }
{
    recounted(d, d.fill, one_more(d.raw_msg_len), s)
}

// One byte more pushed, and k stored.
fn stored_on(d: Decoder, k: usize, s: DecodeState) -> Decoder
    requires { d.fill + k < 2 ^ 64 }
    ensures { result ≡ stored_on d k s }
{
    recounted(d, d.fill + k, one_more(d.raw_msg_len), s)
}

// The CRC's register behind the start sequence, with which every frame begins.
const STARTED: u16 = 0x91dc;

// A frame begins: the CRC has gone over the start sequence. Tried: gone over it at each frame, a push of a slice takes 8.06 instructions a byte beside the CRC on the meters' frames, with the number 7.8, and 8 is the bar.
#[tactic(auto, using(crate::proofs::Begun::begun_register))]
fn begun_frame(c: Setup) -> Decoder
    ensures { result ≡ record_of c begun }
{
    made(
        c,
        0,
        Decoder::START_LEN,
        STARTED,
        0,
        DecodeState::ParsingNormal,
    )
}

// A search goes on, or begins: nothing is stored, and no CRC runs.
fn looking(d: Decoder, noise: u32, n: u8) -> Decoder
    ensures { result ≡ record_of (setup d) (search n noise (stopped (suc d.raw_msg_len))) }
{
    made(
        setup_of(d),
        0,
        one_more(d.raw_msg_len),
        crc_x25::INIT,
        0,
        DecodeState::LookingForMessageStart {
            num_discarded_bytes: noise,
            num_init_seq_bytes: n,
        },
    )
}

// Behind n start bytes, b is the next one. Public for decoder_slice, which runs over the bytes of a search by it.
pub fn matching(n: u8, b: u8) -> bool
    ensures { result ≡ starts n b }
{
    if n < 4 { b == Decoder::ESC } else { b == 0x01 }
}

// How many start bytes stay matched behind n of them and a byte that is not the next: in the first way none, even if it is itself 1b.
fn still_matched(way: u8, n: u8, b: u8) -> u8
    requires { starts n b ≡ false }
    ensures { result ≡ matched_behind way n b }
{
    if way == Decoder::SECOND_WAY {
        return search::advance(n, b);
    }
    0
}

// The arm LookingForMessageStart of push_byte: one byte of a search.
#[tactic(auto, unfolding(crate::specs::Push::searching), using(crate::proofs::Search::matched_next, crate::proofs::Search::matched_most, crate::proofs::Search::not_eight))]
fn looking_for_message_start(d: Decoder, noise: u32, n: u8, b: u8) -> Pushed
    requires { n < 8 }
    ensures { result ≡ code (setup d) (searching d.way n noise d.raw_msg_len b) }
{
    // The next start byte is one more in either way.
    if matching(n, b) {
        if n == 7 {
            let begun = begun_frame(setup_of(d));
            if noise == 0 {
                return quiet(begun);
            }
            return Pushed {
                decoder: begun,
                event: Err(DecodeErr::DiscardedBytes(noise)),
            };
        }
        return quiet(looking(d, noise, n + 1));
    }
    let k = still_matched(d.way, n, b);
    quiet(looking(d, more_noise(noise, n, k), k))
}

// The arm ParsingNormal: a byte of the frame, or the first 1b of a run.
#[tactic(auto, unfolding(crate::specs::Cut::normal_step), using(crate::proofs::Tests::lt_room, crate::proofs::Tests::le_room))]
fn parsing_normal(d: Decoder, buf: &mut [u8], b: u8) -> Pushed
    ensures { cut result buf.new ≡ normal_step d buf.old b }
{
    if b == Decoder::ESC {
        return quiet(pushed_on(d, DecodeState::ParsingEscChars(1)));
    }
    let at = d.fill;
    if at < buf.len() {
        buf[at] = b;
        return quiet(stored_on(d, 1, DecodeState::ParsingNormal));
    }
    fresh_with(setup_of(d), Err(DecodeErr::OutOfMemory))
}

// n bytes 1b from `at` on, and b.
fn put_run_and(buf: &mut [u8], at: usize, n: usize, b: u8)
    requires { at + n < length buf.old }
    ensures { buf.new ≡ sets buf.old at (replicate n 0x1b ++ (b ∷ [])) }
{
    buf[at..at + n].fill(Decoder::ESC);
    buf[at + n] = b;
}

// The fourth 1b: the CRC goes over what it hasn't, and over the four, which aren't stored.
#[tactic(auto, unfolding(crate::specs::Cut::escape_at))]
fn escape_at(d: Decoder, buf: &[u8]) -> Decoder
    requires { FrameHeld d buf.now 0 }
    ensures { result ≡ escape_at d buf.now }
{
    let seen = crc_x25::update(d.crc, &buf[d.crc_idx..d.fill]);
    let crc = crc_x25::update(seen, &frame::ESCAPE);
    made(
        setup_of(d),
        d.fill,
        one_more(d.raw_msg_len),
        crc,
        d.fill,
        DecodeState::ParsingEscPayload(0),
    )
}

// The arm ParsingEscChars: a 1b more, or the run was data and is stored with the byte.
#[tactic(auto, unfolding(crate::specs::Cut::wait_step), using(crate::proofs::Tests::lt_room_left, crate::proofs::Tests::le_room_left, crate::proofs::Stores::run_length))]
fn parsing_esc_chars(d: Decoder, buf: &mut [u8], n: u8, b: u8) -> Pushed
    requires { FrameHeld d buf.old 0 × (n ≤ 3) }
    ensures { cut result buf.new ≡ wait_step d buf.old n b }
{
    if b == Decoder::ESC {
        if n == 3 {
            return quiet(escape_at(d, &buf[..]));
        }
        return quiet(pushed_on(d, DecodeState::ParsingEscChars(n + 1)));
    }
    let at = d.fill;
    let k = n as usize;
    if k < buf.len() - at {
        put_run_and(buf, at, k, b);
        return quiet(stored_on(d, k + 1, DecodeState::ParsingNormal));
    }
    fresh_with(setup_of(d), Err(DecodeErr::OutOfMemory))
}

// u16::from_le_bytes of the Rust: the two CRC bytes, low byte first.
fn le16(lo: u8, hi: u8) -> u16
    ensures { result ≡ lo + hi * 256 }
{
    u16::from_le_bytes([lo, hi])
}

// The tests of the Rust's arm 0x1a: CRC, alignment, and the pad count against 3 and against what is stored.
#[tactic(auto, unfolding(crate::specs::Cut::sound))]
fn is_sound_end(fill: usize, read_crc: u16, calculated_crc: u16, p: u8) -> bool
    requires { 4 ≤ fill }
    ensures { result ≡ sound fill read_crc calculated_crc p }
{
    read_crc == calculated_crc
        && fill % 4 == 0
        && p <= 3
        && p as usize + Decoder::ESC_PAYLOAD_LEN <= fill
}

// An end sequence with the pad count p: a payload, or no valid message.
#[tactic(auto, unfolding(crate::specs::Cut::verdict), using(crate::proofs::Tests::sound_room))]
fn judged_end(c: Setup, fill: usize, read_crc: u16, calculated_crc: u16, p: u8) -> Pushed
    requires { 4 ≤ fill }
    ensures { result ≡ verdict c fill read_crc calculated_crc p }
{
    if is_sound_end(fill, read_crc, calculated_crc, p) {
        let length = fill - (p as usize + Decoder::ESC_PAYLOAD_LEN);
        return Pushed {
            decoder: made(c, length, 0, crc_x25::INIT, 0, DecodeState::Done),
            event: Ok(true),
        };
    }
    fresh_with(
        c,
        Err(DecodeErr::InvalidMessage {
            read_crc,
            calculated_crc,
            misaligned: fill % 4 != 0,
            num_padding_bytes: p,
        }),
    )
}

// The end sequence: 1a, the pad count, the CRC low byte first. The CRC goes over all but itself.
#[tactic(auto, unfolding(crate::specs::Cut::end_step))]
fn end_sequence(d: Decoder, buf: &[u8]) -> Pushed
    requires { FrameHeld d buf.now 4 }
    ensures { result ≡ end_step d buf.now }
{
    let at = d.fill - Decoder::ESC_PAYLOAD_LEN;
    let read = le16(buf[at + 2], buf[at + 3]);
    let seen = crc_x25::update(d.crc, &buf[d.crc_idx..at + 2]);
    let calculated = crc_x25::finalize(seen);
    judged_end(setup_of(d), d.fill, read, calculated, buf[at + 1])
}

// The first a of the four bytes are 1b, and the next is 1a.
fn is_cut_end(a: usize, q: &[u8]) -> bool
    requires { (a ≤ 3) × (length q.now ≡ 4) }
    ensures { result ≡ early a q.now }
{
    let t: &[u8] = b"\x1b\x1b\x1b\x1a";
    a != 0 && &q[..a + 1] == &t[3 - a..]
}

// Behind an escape none of the known sequences: the message ends with 1 to 3 bytes 1b and the end sequence behind them is cut, or the escape is invalid.
#[tactic(auto, unfolding(crate::specs::Cut::other_step))]
fn other_escape(d: Decoder, buf: &[u8]) -> Pushed
    requires { FrameHeld d buf.now 4 }
    ensures { result ≡ other_step d buf.now }
{
    let at = d.fill - Decoder::ESC_PAYLOAD_LEN;
    let bytes_until_alignment = (4 - d.fill % 4) % 4;
    if is_cut_end(bytes_until_alignment, &buf[at..at + 4]) {
        let read = (4 - bytes_until_alignment) as u8;
        return quiet(in_state(d, DecodeState::ParsingEscPayload(read)));
    }
    fresh_with(
        setup_of(d),
        Err(DecodeErr::InvalidEsc(buf[at], buf[at + 1], buf[at + 2], buf[at + 3])),
    )
}

// The four bytes behind an escape, the last of which has been stored.
#[tactic(auto, unfolding(crate::specs::Cut::judge_step), using(crate::proofs::Same::same_pointwise))]
fn judge_step(d: Decoder, buf: &[u8]) -> Pushed
    requires { FrameHeld d buf.now 4 }
    ensures { result ≡ judge_step d buf.now }
{
    let at = d.fill - Decoder::ESC_PAYLOAD_LEN;
    let mut four = [0; 4];
    four.copy_from_slice(&buf[at..at + 4]);
    if four == frame::ESCAPE {
        return quiet(in_state(d, DecodeState::ParsingNormal));
    }
    if four == frame::RESTART {
        let ignored_bytes = d.raw_msg_len - Decoder::START_LEN;
        return Pushed {
            decoder: begun_frame(setup_of(d)),
            event: Err(DecodeErr::DiscardedBytes(ignored_bytes)),
        };
    }
    if buf[at] == 0x1a {
        return end_sequence(d, buf);
    }
    other_escape(d, buf)
}

// The arm ParsingEscPayload: a byte behind an escape is stored, and the fourth is judged.
#[tactic(auto, unfolding(crate::specs::Cut::escape_step), using(crate::proofs::Tests::lt_room, crate::proofs::Tests::le_room))]
fn parsing_esc_payload(d: Decoder, buf: &mut [u8], n: u8, b: u8) -> Pushed
    requires { FrameHeld d buf.old n × (n ≤ 3) }
    ensures { cut result buf.new ≡ escape_step d buf.old n b }
{
    let last = d.fill;
    if last < buf.len() {
        buf[last] = b;
        if n < 3 {
            return quiet(stored_on(d, 1, DecodeState::ParsingEscPayload(n + 1)));
        }
        return judge_step(stored_on(d, 1, DecodeState::ParsingEscPayload(3)), &buf[..]);
    }
    fresh_with(setup_of(d), Err(DecodeErr::OutOfMemory))
}

// A way of searching that is neither the first nor the second.
fn unknown_way(way: u8) -> bool
    ensures { result ≡ unknown_way way }
{
    way != Decoder::FIRST_WAY && way != Decoder::SECOND_WAY
}

// Counts that no push leaves in this state.
fn bad_in(fill: usize, crc_idx: usize, raw_msg_len: u32, s: DecodeState) -> bool
    requires { crc_idx ≤ fill }
    ensures { result ≡ bad_in fill crc_idx raw_msg_len s }
{
    match s {
        DecodeState::LookingForMessageStart {
            num_discarded_bytes: _,
            num_init_seq_bytes,
        } => fill != 0 || 7 < num_init_seq_bytes,
        DecodeState::ParsingNormal => raw_msg_len < Decoder::START_LEN,
        DecodeState::ParsingEscChars(n) => raw_msg_len < Decoder::START_LEN || n == 0 || 3 < n,
        DecodeState::ParsingEscPayload(n) => {
            raw_msg_len < Decoder::START_LEN || 3 < n || fill - crc_idx < n as usize
        }
        DecodeState::Done => false,
    }
}

// Refusal 4: an unknown way, or counts that no push leaves. Public for those that ask it before they take a byte.
#[tactic(auto, unfolding(crate::specs::Record::bad_decoder))]
pub fn bad_decoder(d: Decoder) -> bool
    ensures { result ≡ bad_decoder d }
{
    unknown_way(d.way)
        || d.capacity < d.fill
        || d.fill < d.crc_idx
        || bad_in(d.fill, d.crc_idx, d.raw_msg_len, d.state)
}

// Refusal 5: the lent buffer isn't as long as the recorded one, or is over the limit; the Rust's buffer is in its type. Public for the same.
#[tactic(auto, unfolding(crate::specs::Record::wrong_buffer))]
pub fn wrong_buffer(recorded: usize, lent: usize) -> bool
    ensures { result ≡ wrong_buffer recorded lent }
{
    lent != recorded || refusals::LIMIT < lent
}

// A byte of a frame that is no 1b and has room, with record and buffer as they should be: what most bytes are.
#[tactic(auto, unfolding(crate::specs::Cut::plain_byte_claim))]
fn is_plain(d: Decoder, lent: usize, b: u8) -> bool
    ensures { result ≡ plain_byte_claim d lent b }
{
    // `==` takes four instructions a byte more than `matches!`, and the bar of a single push is missed already.
    matches!(d.state, DecodeState::ParsingNormal)
        && b != Decoder::ESC
        && d.fill < lent
        && d.crc_idx <= d.fill
        && Decoder::START_LEN <= d.raw_msg_len
        && lent == d.capacity
        && lent <= refusals::LIMIT
        && !unknown_way(d.way)
}

// A refusal that leaves the record as it is. It is made anew, since a copy has its padding to carry.
fn unchanged(d: Decoder, e: Event) -> Pushed
    ensures { result ≡ record { decoder = d; event = e } }
{
    Pushed {
        decoder: in_state(d, d.state),
        event: e,
    }
}

// Pushes a byte: the checks of record and buffer, then one step. A push of a slice calls this at the bytes that are not plain.
#[tactic(auto, using(crate::proofs::Tied::push_bad, crate::proofs::Tied::push_wrong, crate::proofs::Valid::sane_search))]
pub fn push_any(d: Decoder, buf: &mut [u8], b: u8) -> Pushed
    ensures { after_push result buf.new ≡ push_record d buf.old b }
{
    if bad_decoder(d) {
        return unchanged(d, Err(DecodeErr::BadState));
    }
    if wrong_buffer(d.capacity, buf.len()) {
        return unchanged(d, Err(DecodeErr::WrongBuffer));
    }
    match d.state {
        DecodeState::LookingForMessageStart {
            num_discarded_bytes,
            num_init_seq_bytes,
        } => { looking_for_message_start(d, num_discarded_bytes, num_init_seq_bytes, b) }
        DecodeState::ParsingNormal => parsing_normal(d, buf, b),
        DecodeState::ParsingEscChars(n) => parsing_esc_chars(d, buf, n, b),
        DecodeState::ParsingEscPayload(n) => parsing_esc_payload(d, buf, n, b),
        DecodeState::Done => looking_for_message_start(new_record(setup_of(d)), 0, 0, b),
    }
}

impl Decoder {
    // Pushes a byte: a plain one by the short way, any other by its state. The record is made anew on both ways, so that it can stay in registers.
    #[tactic(auto, using(crate::proofs::Plain::plain_says, crate::proofs::Plain::plain_fits, crate::proofs::Plain::push_plain))]
    pub fn push_byte(self, buf: &mut [u8], b: u8) -> Pushed
        ensures { after_push result buf.new ≡ push_record self buf.old b }
    {
        let at = self.fill;
        if is_plain(self, buf.len(), b) {
            buf[at] = b;
            return quiet(stored_on(self, 1, self.state));
        }
        let p = push_any(in_state(self, self.state), buf, b);
        Pushed {
            decoder: in_state(p.decoder, p.decoder.state),
            event: p.event,
        }
    }

    // Says how many bytes are lost, if any, and begins again.
    #[tactic(auto, unfolding(crate::specs::Record::finalize_record, crate::specs::Push::finalized))]
    pub fn finalize(self) -> Finalized
        ensures { after_finalize result ≡ finalize_record self }
    {
        if bad_decoder(self) {
            return Finalized {
                decoder: self,
                event: Err(DecodeErr::BadState),
            };
        }
        let event = match self.state {
            DecodeState::LookingForMessageStart {
                num_discarded_bytes: 0,
                num_init_seq_bytes: 0,
            }
            | DecodeState::Done => Ok(false),
            _ => Err(DecodeErr::DiscardedBytes(self.raw_msg_len)),
        };
        Finalized {
            decoder: new_record(setup_of(self)),
            event,
        }
    }

    // Begins again, and gives the number of bytes that are lost. Any record will do.
    #[tactic(auto, unfolding(crate::specs::Record::reset_record, crate::specs::Push::reset_count))]
    pub fn reset(self) -> AfterReset
        ensures { after_reset result ≡ reset_record self }
    {
        AfterReset {
            decoder: new_record(setup_of(self)),
            count: if self.state == DecodeState::Done {
                0
            } else {
                self.raw_msg_len
            },
        }
    }

    // Whether a payload stands in the buffer, or why `payload` gives the empty part.
    #[tactic(auto, using(crate::proofs::Checks::ask_is, crate::proofs::Checks::ask_no))]
    pub fn ask_payload(self, buf: &[u8]) -> Result<(), BadSpan>
        ensures { answer_asked result ≡ ask_record self buf.now }
    {
        if payload_in(self, buf.len()) {
            Ok(())
        } else {
            Err(BadSpan)
        }
    }

    // The payload: the buffer's first bytes, from the push that said it to the next. Otherwise the empty part, and no None: document 01 wants that, and a question of its own.
    #[tactic(auto, using(crate::proofs::Checks::payload_is, crate::proofs::Checks::payload_no_lem, decided::proofs::Parts::handed_is))]
    pub fn payload(self, buf: &[u8]) -> &[u8]
        ensures { handed result ≡ part_at (handed buf.entry) 0 (payload_record self buf.now) }
    {
        if payload_in(self, buf.len()) {
            &buf[..self.fill]
        } else {
            &buf[..0]
        }
    }
}

// A payload stands in a buffer of this length.
#[tactic(auto, unfolding(crate::specs::Cut::payload_in))]
fn payload_in(d: Decoder, lent: usize) -> bool
    ensures { result ≡ payload_in d lent }
{
    !bad_decoder(d) && !wrong_buffer(d.capacity, lent) && d.state == DecodeState::Done
}
