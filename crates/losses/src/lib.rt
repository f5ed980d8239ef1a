// Why bytes of a recording were lost (document 02, Q-10): for each refusal of a decoder that gets the recording, then finalize, its piece of the recording and the causes.
#![tactic(auto)]

ghost use Rattle.std.specs.Prelude.{◌≡◌, false, not, List, [], ℕ, Ok, Err, suc, ◌+◌, ◌-◌, ◌≤◌, ◌<◌, ◌^◌, length, eqb};
ghost use Rattle.decoder.specs.Record.{answer_err, answer_of};
ghost use Rattle.decoder_slice.specs.Slice.{says_nothing, took};
ghost use Rattle.losses.specs.Loss.{dropped_for, wrong_pads, cause_of, loss_over, loss_told, loss_after, next_loss};
ghost use Rattle.losses.specs.Watch.{watch_new, bad_watch, over_of, look_behind, seen_as, sight_of, after_watch, watch_slice, said_at_end, after_end, watch_end};
ghost use Rattle.losses.specs.Cut.{looked_over, found_start, watched_of};

use decoder::{DecodeErr, Decoder, Event};
use decoder_slice::Sliced;

// Why bytes were lost. Several may be true of an end sequence, at least one is.
#[derive(Clone, Copy, PartialEq, Eq)]
pub enum Cause {
    Noise,
    Unfinished,
    Hidden,
    Cut,
    UnknownEscape,
    NoRoom,
    Invalid {
        wrong_crc: bool,
        misaligned: bool,
        wrong_pads: bool,
    },
}

// A piece of the recording, its first and last byte counted from 1.
#[derive(Clone, Copy, PartialEq, Eq)]
pub struct Loss {
    pub cause: Cause,
    pub first: usize,
    pub last: usize,
}

// Refusals 4 and 5.
#[derive(Clone, Copy, PartialEq, Eq)]
pub enum LossError {
    BadState,
    WrongBuffer,
}

// What is looked for in the bytes of the running search or frame: the first whole start sequence.
#[derive(Clone, Copy)]
pub struct Look {
    // So many bytes of a start sequence stand last, while none is found.
    pub matched: u8,
    // Behind so many bytes the first whole one ends; 0: none yet. Behind 8: a frame is running. No Option: C keeps it as a number (sgh_watch), where Some(0) would be None.
    pub start_end: usize,
}

// A decoder whose answers are told as losses: it needs no byte of the recording but those of the next slice.
#[derive(Clone, Copy)]
pub struct Watch {
    pub decoder: Decoder,
    // How many bytes were pushed, and how many of them stand before the running search or frame.
    pub pushed: usize,
    pub begun: usize,
    pub look: Look,
}

// What a slice brings: a frame whose payload stands in the buffer, from its first to its last byte, or a loss.
#[derive(Clone, Copy, PartialEq, Eq)]
pub enum Seen {
    Kept { first: usize, last: usize },
    Lost(Loss),
}

#[derive(Clone, Copy)]
pub struct Watched {
    pub watch: Watch,
    pub seen: Result<Option<Seen>, LossError>,
    pub taken: usize,
}

// `Ok(None)`: nothing more is lost.
#[derive(Clone, Copy)]
pub struct WatchEnded {
    pub watch: Watch,
    pub told: Result<Option<Loss>, LossError>,
}

// No byte of a search.
const NO_LOOK: Look = Look {
    matched: 0,
    start_end: 0,
};

impl Watch {
    // A new decoder, at the recording's beginning. An unknown way and a capacity over the limit are taken, as by the decoder: a slice is refused.
    pub fn new(capacity: usize, way: u8) -> Watch
        ensures { result ≡ watch_new capacity way 0 }
    {
        watch_from(capacity, way, 0)
    }
}

// A new decoder behind the recording's first `from` bytes.
fn watch_from(capacity: usize, way: u8, from: usize) -> Watch
    ensures { result ≡ watch_new capacity way from }
{
    Watch {
        decoder: Decoder::with_way(capacity, way),
        pushed: from,
        begun: from,
        look: NO_LOOK,
    }
}

// The first whole start sequence among n bytes that were looked at and these.
#[tactic(auto, using(crate::proofs::Looks::over_found, crate::proofs::Looks::look_ends, crate::proofs::Looks::look_further, crate::proofs::Looks::look_done, crate::proofs::Looks::unfound))]
fn look_over(l: Look, n: usize, bytes: &[u8]) -> Look
    requires { n + length bytes.now < 2 ^ 64 }
    ensures { result ≡ looked_over l n bytes.now }
{
    if l.start_end != 0 {
        return l;
    }
    let mut matched = l.matched;
    for i in 0..bytes.len() {
        matched = search::advance(matched, bytes[i]);
        if matched == 8 {
            return Look {
                matched,
                start_end: n + i + 1,
            };
        }
    }
    Look {
        matched,
        start_end: 0,
    }
}

// Of a DiscardedBytes: a frame was running, or a search that passed a start by, or one without.
fn dropped_for(at_end: bool, l: Look) -> Cause
    ensures { result ≡ dropped_for at_end (eqb l.start_end 8) (not (eqb l.start_end 0)) }
{
    match l.start_end {
        8 => {
            if at_end {
                Cause::Unfinished
            } else {
                Cause::Cut
            }
        }
        0 => Cause::Noise,
        _ => Cause::Hidden,
    }
}

// An end sequence says more pad bytes than three, or than there are data bytes in a piece of so many.
fn wrong_pads(long: usize, p: u8) -> bool
    ensures { result ≡ wrong_pads long p }
{
    3 < p || long < p as usize + 16
}

// Why a piece of so many bytes was lost.
#[tactic(auto, unfolding(crate::specs::Loss::cause_of))]
fn cause_of(at_end: bool, l: Look, long: usize, e: DecodeErr) -> Cause
    ensures { result ≡ cause_of at_end (eqb l.start_end 8) (not (eqb l.start_end 0)) long (answer_err e) }
{
    match e {
        DecodeErr::DiscardedBytes(_) => dropped_for(at_end, l),
        DecodeErr::InvalidEsc(_, _, _, _) => Cause::UnknownEscape,
        DecodeErr::InvalidMessage {
            read_crc,
            calculated_crc,
            misaligned,
            num_padding_bytes,
        } => Cause::Invalid {
            wrong_crc: read_crc != calculated_crc,
            misaligned,
            wrong_pads: wrong_pads(long, num_padding_bytes),
        },
        DecodeErr::OutOfMemory | DecodeErr::BadState | DecodeErr::WrongBuffer => Cause::NoRoom,
    }
}

// So many bytes behind the recording's first `begun`.
fn loss_over(cause: Cause, begun: usize, long: usize) -> Loss
    requires { suc begun + long < 2 ^ 64 }
    ensures { result ≡ loss_over cause begun long }
{
    Loss {
        cause,
        first: begun + 1,
        last: begun + long,
    }
}

// The counts can't be, or n bytes more could not be counted.
#[tactic(auto, unfolding(crate::specs::Watch::bad_watch))]
fn bad_watch(w: Watch, n: usize) -> bool
    ensures { result ≡ bad_watch w n }
{
    w.pushed < w.begun || w.pushed.saturating_add(n) == usize::MAX
}

// A new start was found: its eight bytes have begun.
fn found_start(e: Event) -> bool
    ensures { result ≡ found_start (answer_of e []) }
{
    matches!(e, Err(DecodeErr::DiscardedBytes(_)))
}

// The bytes that are over with an event, of so many since the search or frame began: all but the eight of a new start.
fn over_of(e: Event, long: usize) -> usize
    ensures { result ≡ over_of (answer_of e []) long }
{
    if matches!(e, Ok(false)) {
        0
    } else if found_start(e) {
        long.saturating_sub(8)
    } else {
        long
    }
}

// How the bytes look that have begun behind an event.
fn look_behind(e: Event) -> Look
    ensures { result ≡ look_behind (answer_of e []) }
{
    if found_start(e) {
        return Look {
            matched: 8,
            start_end: 8,
        };
    }
    NO_LOOK
}

// What an event is seen as, of a piece or frame of so many bytes.
fn sight_of(e: Event, l: Look, begun: usize, long: usize) -> Option<Seen>
    requires { suc begun + long < 2 ^ 64 }
    ensures { seen_as (Ok result) ≡ sight_of (answer_of e []) l begun long }
{
    match e {
        Ok(false) => None,
        Ok(true) => Some(Seen::Kept {
            first: begun + 1,
            last: begun + long,
        }),
        Err(e) => {
            let cause = cause_of(false, l, long, e);
            Some(Seen::Lost(loss_over(cause, begun, long)))
        }
    }
}

// The watch behind a slice of which so many bytes were taken.
#[tactic(auto, unfolding(crate::specs::Cut::watched_of), using(crate::proofs::Taken::over_most))]
fn watched_of(w: Watch, chunk: &[u8], s: Sliced) -> Watched
    requires { (w.begun ≤ w.pushed) × (w.pushed + s.taken < 2 ^ 64 - 1) × (s.taken ≤ length chunk.now) × (says_nothing (answer_of s.event []) ≡ false → 1 ≤ s.taken) }
    ensures { (m : List ℕ) → after_watch result m ≡ watched_of w chunk.now (took (answer_of s.event []) s.decoder s.taken m) }
{
    let n = w.pushed - w.begun;
    let taken = s.taken;
    let pushed = w.pushed + taken;
    if matches!(s.event, Ok(false)) {
        return Watched {
            watch: Watch {
                decoder: s.decoder,
                pushed,
                begun: w.begun,
                look: look_over(w.look, n, &chunk[..taken]),
            },
            seen: Ok(None),
            taken,
        };
    }
    let before = look_over(w.look, n, &chunk[..taken - 1]);
    let over = over_of(s.event, n + taken);
    Watched {
        watch: Watch {
            decoder: s.decoder,
            pushed,
            begun: w.begun + over,
            look: look_behind(s.event),
        },
        seen: Ok(sight_of(s.event, before, w.begun, over)),
        taken,
    }
}

// A slice that was refused.
fn refused(w: Watch, e: LossError) -> Watched
    ensures { result ≡ record { watch = w; seen = Err e; taken = 0 } }
{
    Watched {
        watch: w,
        seen: Err(e),
        taken: 0,
    }
}

// Pushes bytes up to and with the first that brings a payload or a loss. The checks come first, and a refused slice takes no byte.
#[tactic(auto, using(crate::proofs::Taken::slice_bad_watch, crate::proofs::Taken::slice_bad_decoder, crate::proofs::Taken::slice_wrong_buffer, crate::proofs::Taken::slice_needs, crate::proofs::Taken::slice_watched))]
pub fn watch_slice(w: Watch, buf: &mut [u8], chunk: &[u8]) -> Watched
    ensures { after_watch result buf.new ≡ watch_slice w buf.old chunk.now }
{
    if bad_watch(w, chunk.len()) || decoder::bad_decoder(w.decoder) {
        return refused(w, LossError::BadState);
    }
    if decoder::wrong_buffer(w.decoder.capacity, buf.len()) {
        return refused(w, LossError::WrongBuffer);
    }
    let s = decoder_slice::push_slice(w.decoder, buf, chunk);
    watched_of(w, chunk, s)
}

// What finalize's event is told as.
fn told_at_end(w: Watch, e: Event) -> Option<Loss>
    requires { (w.begun ≤ w.pushed) × (w.pushed < 2 ^ 64 - 1) }
    ensures { loss_told (Ok result) ≡ said_at_end w (answer_of e []) }
{
    let Err(e) = e else {
        return None;
    };
    let long = w.pushed - w.begun;
    Some(loss_over(cause_of(true, w.look, long, e), w.begun, long))
}

// The recording ends: what is left is lost.
#[tactic(auto, unfolding(crate::specs::Watch::watch_end), using(crate::proofs::Events::good_watch))]
pub fn watch_end(w: Watch) -> WatchEnded
    ensures { after_end result ≡ watch_end w }
{
    if bad_watch(w, 0) || decoder::bad_decoder(w.decoder) {
        return WatchEnded {
            watch: w,
            told: Err(LossError::BadState),
        };
    }
    let f = w.decoder.finalize();
    WatchEnded {
        watch: Watch {
            decoder: f.decoder,
            pushed: w.pushed,
            begun: w.pushed,
            look: NO_LOOK,
        },
        told: Ok(told_at_end(w, f.event)),
    }
}

// What is lost next behind the recording's first `from` bytes; `Ok(None)`: nothing more is. The first call has 0, each later one the last byte of the loss before.
#[tactic(auto, using(crate::proofs::Calls::loss_bad, crate::proofs::Calls::loss_wrong, crate::proofs::Calls::loss_past))]
pub fn next_loss(
    recording: &[u8],
    way: u8,
    buf: &mut [u8],
    from: usize,
) -> Result<Option<Loss>, LossError>
    ensures { loss_after (loss_told result) buf.new ≡ next_loss recording.now way buf.old from }
{
    let capacity = buf.len();
    if decoder::bad_decoder(Decoder::with_way(capacity, way)) {
        return Err(LossError::BadState);
    }
    if decoder::wrong_buffer(capacity, capacity) {
        return Err(LossError::WrongBuffer);
    }
    if recording.len() <= from {
        return Ok(None);
    }
    let mut w = watch_from(capacity, way, from);
    let mut at = from;
    // No `for`: a slice says itself how many bytes it took.
    while at < recording.len() {
        let r = watch_slice(w, buf, &recording[at..]);
        w = r.watch;
        at += r.taken;
        match r.seen? {
            Some(Seen::Lost(l)) => return Ok(Some(l)),
            Some(Seen::Kept { .. }) => {}
            None => {}
        }
    }
    watch_end(w).told
}
