// push, finalize, reset and the push of a slice with the decoder lent to be changed in place, as the collector keeps one (`&mut self` of transport.rs's Decoder), and next with the Encoder lent.
// Each is thin: the record is read whole, the function by value does the work, and the record that it gives is stored whole.
#![tactic(auto)]

ghost use Rattle.std.specs.Prelude.{◌≡◌};
ghost use Rattle.decoder.specs.Record.{after_push, after_finalize, after_reset, push_record, finalize_record, reset_record};
ghost use Rattle.decoder_slice.specs.Slice.{after_slice, slice_record};
ghost use Rattle.encoder.specs.Encoder.{step_of, next_step};

use decoder::{AfterReset, Decoder, Event, Finalized, Pushed};
use decoder_slice::Sliced;
use encoder::{Encoder, EncoderError, Given};

// The first event, and how many bytes were taken up to and with the one that brought it.
#[derive(Clone, Copy)]
pub struct Taken {
    pub event: Event,
    pub taken: usize,
}

// Pushes a byte.
pub fn push(d: &mut Decoder, buf: &mut [u8], b: u8) -> Event
    ensures { after_push (record { decoder = d.new; event = result }) buf.new ≡ push_record d.old buf.old b }
{
    let r = (*d).push_byte(buf, b);
    *d = r.decoder;
    r.event
}

// Says how many bytes are lost, if any; the decoder begins again. A line over the function by value, as reset is; document 01 wants both forms.
pub fn finalize(d: &mut Decoder) -> Event
    ensures { after_finalize (record { decoder = d.new; event = result }) ≡ finalize_record d.old }
{
    let r = (*d).finalize();
    *d = r.decoder;
    r.event
}

// Gives the number of bytes that are lost; the decoder begins again.
pub fn reset(d: &mut Decoder) -> u32
    ensures { after_reset (record { decoder = d.new; count = result }) ≡ reset_record d.old }
{
    let r = (*d).reset();
    *d = r.decoder;
    r.count
}

// Pushes bytes until the first event.
pub fn push_slice(d: &mut Decoder, buf: &mut [u8], chunk: &[u8]) -> Taken
    ensures { after_slice (record { decoder = d.new; event = result.event; taken = result.taken }) buf.new ≡ slice_record d.old buf.old chunk.now }
{
    let r = decoder_slice::push_slice(*d, buf, chunk);
    *d = r.decoder;
    Taken {
        event: r.event,
        taken: r.taken,
    }
}

// Gives the next byte of the payload's frame, the Encoder lent to be changed in place. The payload is the same at every call.
pub fn next(e: &mut Encoder, payload: &[u8]) -> Result<Option<u8>, EncoderError>
    ensures { step_of (record { answer = result; encoder = e.new }) ≡ next_step e.old payload.now }
{
    let r = (*e).next(payload);
    *e = r.encoder;
    r.answer
}

// ---- For tests alone: the same with plain parameters. The record goes into a local, which is lent, and is given back beside the answer.

// push, as a test calls it.
pub fn push_lent(d: Decoder, buf: &mut [u8], b: u8) -> Pushed
    ensures { after_push result buf.new ≡ push_record d buf.old b }
{
    let mut decoder = d;
    let event = push(&mut decoder, buf, b);
    Pushed { decoder, event }
}

// finalize, as a test calls it.
pub fn finalize_lent(d: Decoder) -> Finalized
    ensures { after_finalize result ≡ finalize_record d }
{
    let mut decoder = d;
    let event = finalize(&mut decoder);
    Finalized { decoder, event }
}

// reset, as a test calls it.
pub fn reset_lent(d: Decoder) -> AfterReset
    ensures { after_reset result ≡ reset_record d }
{
    let mut decoder = d;
    let count = reset(&mut decoder);
    AfterReset { decoder, count }
}

// push_slice, as a test calls it.
pub fn push_slice_lent(d: Decoder, buf: &mut [u8], chunk: &[u8]) -> Sliced
    ensures { after_slice result buf.new ≡ slice_record d buf.old chunk.now }
{
    let mut decoder = d;
    let t = push_slice(&mut decoder, buf, chunk);
    Sliced {
        decoder,
        event: t.event,
        taken: t.taken,
    }
}

// next, as a test calls it.
pub fn next_lent(e: Encoder, payload: &[u8]) -> Given
    ensures { step_of result ≡ next_step e payload.now }
{
    let mut encoder = e;
    let answer = next(&mut encoder, payload);
    Given { answer, encoder }
}
