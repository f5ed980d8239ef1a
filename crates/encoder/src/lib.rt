// encode and Encoder of transport.rs. The output is lent memory; the iterator became a lent payload and a place in it.
#![tactic(auto)]

ghost use Rattle.std.specs.Prelude.{◌≡◌, false, ◌∷◌, ◌+◌, ◌≤◌, length, take, pos, neg_ℤ, leb};
ghost use Rattle.std.proofs.Math.IntN.{suc_ℤ};
ghost use Rattle.std.specs.Int.Signed.{lt_z};
ghost use Rattle.crc_x25.specs.Crc.{register};
ghost use Rattle.frame.specs.Frame.{run_with, four_more, escaped, missing, frame_of};
ghost use Rattle.refusals.specs.Numbers.{limit};
ghost use Rattle.encoder.specs.Encode.{encode_answer, after_encode, encode_to};
ghost use Rattle.encoder.specs.Encoder.{byte, next_answer, step_of, step_to, encoder_at, fresh_encoder, end_of, end_byte, bad_end, last_end, bad_count, bad_encoder, ended, run_of, looked, step_from, next_step};
ghost use Rattle.encoder.specs.Parts.{Stored, NoneEscapes, run_after};

// Why encode writes no frame.
#[derive(Clone, Copy, PartialEq, Eq)]
pub enum EncodeError {
    PayloadTooLong,
    OutOfMemory,
}

#[derive(Clone, Copy, PartialEq, Eq)]
pub enum EncoderState {
    Init(u8),
    LookingForEscape(u8),
    HandlingEscape(u8),
    End(i8),
}

// Gives the bytes of a payload's frame, one a call.
#[derive(Clone, Copy, PartialEq, Eq)]
pub struct Encoder {
    pub state: EncoderState,
    pub place: usize,
    pub crc: u16,
}

// Why next gives no byte of a frame that is not finished.
#[derive(Clone, Copy, PartialEq, Eq)]
pub enum EncoderError {
    PayloadTooLong,
    BadState,
}

// An answer, and the Encoder for the next call.
#[derive(Clone, Copy, PartialEq, Eq)]
pub struct Given {
    pub answer: Result<Option<u8>, EncoderError>,
    pub encoder: Encoder,
}

// The pad count of a payload.
fn num_padding_bytes(len: usize) -> usize
    ensures { result ≡ missing len }
{
    (4 - len % 4) % 4
}

// Whether an End count is outside -3 to 8.
fn bad_end(n: i8) -> bool
    ensures { result ≡ bad_end n }
{
    n < -3 || 8 < n
}

// Whether all bytes of the end are given.
fn last_end(n: i8) -> bool
    ensures { result ≡ last_end n }
{
    8 <= n
}

// The next End count.
#[tactic(auto, using(crate::proofs::Ends::next_fits, crate::proofs::Ends::end_next_is))]
fn next_end(n: i8) -> i8
    requires { last_end n ≡ false }
    ensures { result ≡ suc_ℤ n }
{
    n + 1
}

// The End count at the first of `pad` pad bytes.
#[tactic(auto, using(crate::proofs::Ends::first_fits, crate::proofs::Ends::first_is))]
fn first_end(pad: usize) -> i8
    requires { pad ≤ 3 }
    ensures { result ≡ neg_ℤ (pos pad) }
{
    -(pad as i8)
}

// An End count that is not negative.
#[tactic(auto, using(crate::proofs::Ends::index_fits, crate::proofs::Ends::index_is_lem))]
fn end_index(n: i8) -> u8
    requires { lt_z n (pos 0) ≡ false }
    ensures { n ≡ pos result }
{
    n as u8
}

// The end's byte at an End count.
fn end_byte(n: i8, pad: u8, crc: u16) -> u8
    requires { last_end n ≡ false }
    ensures { result ≡ end_byte n pad crc }
{
    if n < 0 {
        return 0x00;
    }
    let [a, b, c, d] = frame::ESCAPE;
    let [low, high] = crc.to_le_bytes();
    let end = [a, b, c, d, 0x1a, pad, low, high];
    end[end_index(n) as usize]
}

// The register behind pad bytes, escape, 1a and the pad count.
#[tactic(auto, using(crate::proofs::Stores::zeros_length, crate::proofs::Steps::end_register))]
fn end_crc(crc: u16, pad: usize) -> u16
    requires { pad ≤ 3 }
    ensures { result ≡ register crc (end_of pad) }
{
    let zeros = [0; 3];
    let padded = crc_x25::update(crc, &zeros[..pad]);
    let tail = [0x1a, pad as u8];
    crc_x25::update(crc_x25::update(padded, &frame::ESCAPE), &tail)
}

// The 1b of a run with the byte b more; four of them want an escape before the run begins anew. That a run here has at most three, the pads too, and that the end is not over, stays a clause: a type for each would be unwrapped at every use.
fn run_of(n: u8, b: u8) -> u8
    requires { n ≤ 3 }
    ensures { result ≡ run_of n b }
{
    if b == frame::ESC { n + 1 } else { 0 }
}

// Whether a state's count is one that no call leaves.
fn bad_count(state: EncoderState) -> bool
    ensures { result ≡ bad_count state }
{
    match state {
        EncoderState::Init(n) => 8 < n,
        EncoderState::LookingForEscape(n) => 4 < n,
        EncoderState::HandlingEscape(n) => 4 < n,
        EncoderState::End(n) => bad_end(n),
    }
}

impl Encoder {
    // An Encoder that gave nothing yet.
    #[tactic(auto, using(crate::proofs::Steps::new_is))]
    pub fn new() -> Encoder
        ensures { result ≡ fresh_encoder }
    {
        Encoder {
            state: EncoderState::Init(0),
            place: 0,
            crc: crc_x25::update(crc_x25::digest(), &frame::START),
        }
    }

    // The byte given, and the Encoder behind it, in this state.
    fn give_byte(self, b: u8, state: EncoderState) -> Given
        ensures { step_of result ≡ step_to (byte b) (encoder_at state self.place self.crc) }
    {
        Given {
            answer: Ok(Some(b)),
            encoder: Encoder { state, ..self },
        }
    }

    // The end's next byte.
    fn give_end(self, n: i8) -> Given
        requires { last_end n ≡ false }
        ensures { step_of result ≡ ended n self.place self.crc }
    {
        let pad = num_padding_bytes(self.place);
        let b = end_byte(n, pad as u8, crc_x25::finalize(self.crc));
        self.give_byte(b, EncoderState::End(next_end(n)))
    }

    // The payload's next byte, behind n 1b of a run, or the end's first.
    fn looking_for_escape(self, n: u8, payload: &[u8]) -> Given
        requires { n ≤ 3 }
        ensures { step_of result ≡ looked n self.place self.crc payload.now }
    {
        if self.place < payload.len() {
            let b = payload[self.place];
            let crc = crc_x25::update_byte(self.crc, b);
            let behind = Encoder {
                place: self.place + 1,
                crc,
                ..self
            };
            return behind.give_byte(b, EncoderState::LookingForEscape(run_of(n, b)));
        }
        let pad = num_padding_bytes(self.place);
        let crc = end_crc(self.crc, pad);
        Encoder { crc, ..self }.give_end(first_end(pad))
    }

    // The next byte. Behind the start, and behind an escape, the payload's next one comes in the same call.
    #[tactic(auto, using(crate::proofs::Steps::steps))]
    fn next_from_state(self, payload: &[u8]) -> Given
        ensures { step_of result ≡ step_from self.state self.place self.crc payload.now }
    {
        let run = match self.state {
            EncoderState::Init(n) if n < 8 => {
                return self.give_byte(frame::START[n as usize], EncoderState::Init(n + 1));
            }
            EncoderState::LookingForEscape(run) if run < 4 => run,
            EncoderState::LookingForEscape(_) => {
                let crc = crc_x25::update(self.crc, &frame::ESCAPE);
                let behind = Encoder { crc, ..self };
                return behind.give_byte(frame::ESC, EncoderState::HandlingEscape(1));
            }
            EncoderState::HandlingEscape(n) if n < 4 => {
                return self.give_byte(frame::ESC, EncoderState::HandlingEscape(n + 1));
            }
            EncoderState::End(n) if last_end(n) => {
                return Given {
                    answer: Ok(None),
                    encoder: self,
                };
            }
            EncoderState::End(n) => return self.give_end(n),
            EncoderState::Init(_) | EncoderState::HandlingEscape(_) => 0,
        };
        self.looking_for_escape(run, payload)
    }

    // Whether no call leaves this Encoder, on a payload of `len` bytes.
    #[tactic(auto, using(crate::proofs::Steps::bad_beyond, crate::proofs::Steps::bad_inside))]
    fn bad_encoder(self, len: usize) -> bool
        ensures { result ≡ bad_encoder self len }
    {
        len < self.place || bad_count(self.state)
    }

    // The next byte of the payload's frame. The payload is the same at every call.
    #[tactic(auto, using(crate::proofs::Steps::next_long, crate::proofs::Steps::next_bad, crate::proofs::Steps::next_good))]
    pub fn next(self, payload: &[u8]) -> Given
        ensures { step_of result ≡ next_step self payload.now }
    {
        if refusals::LIMIT < payload.len() {
            return Given {
                answer: Err(EncoderError::PayloadTooLong),
                encoder: self,
            };
        }
        if self.bad_encoder(payload.len()) {
            return Given {
                answer: Err(EncoderError::BadState),
                encoder: self,
            };
        }
        self.next_from_state(payload)
    }
}

// `bytes` go to `out` from `at` on; answers the place behind them. Crate lines has the like: no public function has a `requires`, so that neither can lend it.
fn extend_from_slice(out: &mut [u8], at: usize, bytes: &[u8]) -> usize
    requires { at + length bytes.now ≤ length out.old }
    ensures { Stored out.new result out.old at bytes.now }
{
    let end = at + bytes.len();
    let part = &mut out[at..end];
    // Not by `copy_from_slice`: with a length known only at run time that calls memmove, which the archive for C would need from outside.
    for (i, b) in part.iter_mut().enumerate() {
        *b = bytes[i];
    }
    end
}

// The fours of `rest` before the first that has a 1b go to `out`, from `at` on; answers how many bytes.
fn put_fours(rest: &[u8], out: &mut [u8], at: usize) -> usize
    requires { at + length rest.now ≤ length out.old }
    ensures { (result ≤ length rest.now) × NoneEscapes result rest.now × Stored out.new (at + result) out.old at (take result rest.now) }
{
    let (fours, _) = rest.as_chunks::<4>();
    for (i, four) in fours.iter().enumerate() {
        if four.contains(&frame::ESC) {
            return 4 * i;
        }
        // A copy of the four goes over in one store: the lent ones might overlap the output.
        let four = *four;
        let o = at + 4 * i;
        out[o..o + 4].copy_from_slice(&four);
    }
    4 * fours.len()
}

// The same byte by byte.
fn put_ones(rest: &[u8], out: &mut [u8], at: usize) -> usize
    requires { at + length rest.now ≤ length out.old }
    ensures { (result ≤ length rest.now) × NoneEscapes result rest.now × Stored out.new (at + result) out.old at (take result rest.now) }
{
    for (i, b) in rest.iter().enumerate() {
        if *b == frame::ESC {
            return i;
        }
        out[at + i] = *b;
    }
    rest.len()
}

// The bytes of `rest` before its first 1b go to `out`, from `at` on; answers how many. A short stretch goes byte by byte, what is left of a longer one by fours first. Tried: with `position` and one copy, a payload of single bytes between 1b takes 36 instructions a byte with its CRC, so 28.
fn put_unescaped(rest: &[u8], out: &mut [u8], at: usize) -> usize
    requires { at + length rest.now ≤ length out.old }
    ensures { (result ≤ length rest.now) × NoneEscapes result rest.now × Stored out.new (at + result) out.old at (take result rest.now) }
{
    if rest.len() < 16 {
        return put_ones(rest, out, at);
    }
    let k = put_ones(&rest[..16], out, at);
    if k < 16 {
        return k;
    }
    let long = k + put_fours(&rest[k..], out, at + k);
    long + put_ones(&rest[long..], out, at + long)
}

// The run of 1b behind k bytes that are none.
fn run_after(k: usize, n: u8) -> u8
    requires { n ≤ 3 }
    ensures { (result ≡ run_after k n) × (result ≤ 3) }
{
    if k == 0 { n } else { 0 }
}

// The run of 1b with the byte b more; behind a fourth one it begins anew.
fn run_with(n: u8, b: u8) -> u8
    requires { n ≤ 3 }
    ensures { (result ≡ run_with n b) × (result ≤ 3) }
{
    if b == frame::ESC && n < 3 { n + 1 } else { 0 }
}

// One byte of the payload, and the escape behind a fourth 1b; answers the place behind them.
fn put_byte(out: &mut [u8], at: usize, n: u8, b: u8) -> usize
    requires { at + length (b ∷ four_more n b) ≤ length out.old }
    ensures { Stored out.new result out.old at (b ∷ four_more n b) }
{
    out[at] = b;
    if b == frame::ESC && n == 3 {
        extend_from_slice(out, at + 1, &frame::ESCAPE)
    } else {
        at + 1
    }
}

// The escaped payload goes to `out` from `at` on; answers the place behind it.
fn put_escaped(payload: &[u8], out: &mut [u8], at: usize) -> usize
    requires { at + length (escaped 0 payload.now) ≤ length out.old }
    ensures { Stored out.new result out.old at (escaped 0 payload.now) }
{
    let mut o = at;
    let mut n: u8 = 0;
    // `i` goes on by whole stretches without a 1b: tried: a `for` over single bytes takes 17.0 instructions a byte, this loop 2.8, and 8 is the bar.
    let mut i = 0;
    while i < payload.len() {
        let k = put_unescaped(&payload[i..], out, o);
        n = run_after(k, n);
        i += k;
        o += k;
        if i < payload.len() {
            let b = payload[i];
            o = put_byte(out, o, n, b);
            n = run_with(n, b);
            i += 1;
        }
    }
    o
}

// How many bytes one byte of the payload takes.
fn bytes_of(run: u8, b: u8) -> usize
    ensures { result ≡ length (b ∷ four_more run b) }
{
    if b == frame::ESC && run == 3 { 5 } else { 1 }
}

// The escaped payload's length.
#[tactic(auto, using(crate::proofs::Stores::counted_more, crate::proofs::Stores::counted_room, crate::proofs::Stores::all_done, crate::proofs::Encodes::escaped_twice))]
fn escaped_len(payload: &[u8]) -> usize
    requires { length payload.now ≤ limit }
    ensures { result ≡ length (escaped 0 payload.now) }
{
    let mut len = 0;
    let mut n: u8 = 0;
    for b in payload {
        len += bytes_of(n, *b);
        n = run_with(n, *b);
    }
    len
}

// Whether the payload's frame fits in `room` bytes. A payload at most doubles, so most outputs need no count.
#[tactic(auto, using(crate::proofs::Encodes::escaped_twice, frame::proofs::Frames::length_frame))]
fn fits(payload: &[u8], room: usize) -> bool
    requires { length payload.now ≤ limit }
    ensures { result ≡ leb (length (frame_of payload.now)) room }
{
    let len = payload.len();
    2 * len + 19 <= room || 8 + escaped_len(payload) + num_padding_bytes(len) + 8 <= room
}

// Pad bytes, escape, 1a and the pad count go to `out` from `at` on; answers the place behind them.
fn put_end(out: &mut [u8], at: usize, pad: usize) -> usize
    requires { (pad ≤ 3) × (at + (pad + 6) ≤ length out.old) }
    ensures { Stored out.new result out.old at (end_of pad) }
{
    let zeros = [0; 3];
    let after = extend_from_slice(out, at, &zeros[..pad]);
    let escape = extend_from_slice(out, after, &frame::ESCAPE);
    extend_from_slice(out, escape, &[0x1a, pad as u8])
}

// The payload's frame goes to `out` from its first place on; answers the frame's length.
#[tactic(auto, using(crate::proofs::Encodes::frame_room, crate::proofs::Encodes::end_room, crate::proofs::Stores::length_end, crate::proofs::Stores::stored_frame))]
fn put_frame(payload: &[u8], out: &mut [u8]) -> usize
    requires { length (frame_of payload.now) ≤ length out.old }
    ensures { Stored out.new result out.old 0 (frame_of payload.now) }
{
    let begun = extend_from_slice(out, 0, &frame::START);
    let at = put_escaped(payload, out, begun);
    let end = put_end(out, at, num_padding_bytes(payload.len()));
    let crc = crc_x25::checksum(&out[..end]);
    extend_from_slice(out, end, &crc.to_le_bytes())
}

// The payload's frame goes to `out`; what stands behind it there is unchanged. A refusal changes nothing.
#[tactic(auto, using(crate::proofs::Encodes::encode_long, crate::proofs::Encodes::encode_full, crate::proofs::Encodes::encode_whole))]
pub fn encode(payload: &[u8], out: &mut [u8]) -> Result<usize, EncodeError>
    ensures { after_encode (encode_answer result) out.new ≡ encode_to payload.now out.old }
{
    if refusals::LIMIT < payload.len() {
        return Err(EncodeError::PayloadTooLong);
    }
    if !fits(payload, out.len()) {
        return Err(EncodeError::OutOfMemory);
    }
    Ok(put_frame(payload, out))
}
