// The static library: what a collector in C or Rust calls (include/sartrogheo.h). Each export is a call of crate sartrogheo, with its clauses.
#![tactic(auto)]

ghost use Rattle.std.specs.Prelude.{◌≡◌, [], ◌∷◌};
ghost use Rattle.crc_x25.specs.Crc.{crc_of};
ghost use Rattle.sartrogheo.specs.Calls.{reply, sgh_decoder_new, sgh_push_byte, sgh_push_slice, sgh_payload, sgh_finalize, sgh_reset, sgh_encode};
ghost use Rattle.sartrogheo.specs.Streams.{sgh_encoder_new, sgh_encoder_next, sgh_next_event};
ghost use Rattle.sartrogheo.specs.Writes.{sgh_write_event};
ghost use Rattle.sartrogheo.specs.Wholes.{sgh_read_message};
ghost use Rattle.sartrogheo.specs.Indexes.{sgh_build_index, sgh_look_up};
ghost use Rattle.sartrogheo.specs.Walks.{sgh_read_item, sgh_walk};
ghost use Rattle.sartrogheo.specs.Losses.{sgh_next_loss, sgh_watch_slice, sgh_watch_end};

// Makes a decoder that has seen nothing, for a buffer of this capacity, in this way of searching.
#[unsafe(no_mangle)]
pub extern "C" fn sgh_decoder_new(bytes: &mut [u8; 28], capacity: usize, way: u8) -> u32
    ensures { reply result (bytes.new ∷ []) ≡ sgh_decoder_new bytes.old capacity way }
{
    sartrogheo::sgh_decoder_new(bytes, capacity, way)
}

// Pushes a byte.
#[unsafe(no_mangle)]
pub extern "C" fn sgh_push_byte(
    bytes: &mut [u8; 28],
    buf: &mut [u8],
    byte: u8,
    values: &mut [u64; 4],
) -> u32
    ensures { reply result (bytes.new ∷ buf.new ∷ values.new ∷ []) ≡ sgh_push_byte bytes.old buf.old byte values.old }
{
    sartrogheo::sgh_push_byte(bytes, buf, byte, values)
}

// Pushes bytes until the first event.
#[unsafe(no_mangle)]
pub extern "C" fn sgh_push_slice(
    bytes: &mut [u8; 28],
    buf: &mut [u8],
    chunk: &[u8],
    taken: &mut usize,
    values: &mut [u64; 4],
) -> u32
    ensures { reply result (bytes.new ∷ buf.new ∷ (taken.new ∷ []) ∷ values.new ∷ []) ≡ sgh_push_slice bytes.old buf.old chunk.now values.old }
{
    sartrogheo::sgh_push_slice(bytes, buf, chunk, taken, values)
}

// The length of the payload that stands in the buffer.
#[unsafe(no_mangle)]
pub extern "C" fn sgh_payload(bytes: &[u8; 28], buf: &[u8], len: &mut usize) -> u32
    ensures { reply result ((len.new ∷ []) ∷ []) ≡ sgh_payload bytes.now buf.now }
{
    sartrogheo::sgh_payload(bytes, buf, len)
}

// Says how many bytes are lost, if any; the decoder begins again.
#[unsafe(no_mangle)]
pub extern "C" fn sgh_finalize(bytes: &mut [u8; 28], values: &mut [u64; 4]) -> u32
    ensures { reply result (bytes.new ∷ values.new ∷ []) ≡ sgh_finalize bytes.old values.old }
{
    sartrogheo::sgh_finalize(bytes, values)
}

// Gives the number of bytes that are lost; the decoder begins again.
#[unsafe(no_mangle)]
pub extern "C" fn sgh_reset(bytes: &mut [u8; 28], values: &mut [u64; 4]) -> u32
    ensures { reply result (bytes.new ∷ values.new ∷ []) ≡ sgh_reset bytes.old values.old }
{
    sartrogheo::sgh_reset(bytes, values)
}

// The payload's frame goes to `out`.
#[unsafe(no_mangle)]
pub extern "C" fn sgh_encode(payload: &[u8], out: &mut [u8], len: &mut usize) -> u32
    ensures { reply result (out.new ∷ (len.new ∷ []) ∷ []) ≡ sgh_encode payload.now out.old }
{
    sartrogheo::sgh_encode(payload, out, len)
}

// Makes an Encoder that gave nothing yet.
#[unsafe(no_mangle)]
pub extern "C" fn sgh_encoder_new(encoder: &mut [u64; 4])
    ensures { encoder.new ≡ sgh_encoder_new }
{
    sartrogheo::sgh_encoder_new(encoder);
}

// The frame's next byte.
#[unsafe(no_mangle)]
pub extern "C" fn sgh_encoder_next(encoder: &mut [u64; 4], payload: &[u8], byte: &mut u8) -> u32
    ensures { reply result (encoder.new ∷ (byte.new ∷ []) ∷ []) ≡ sgh_encoder_next encoder.old payload.now byte.old }
{
    sartrogheo::sgh_encoder_next(encoder, payload, byte)
}

// The check value of the bytes.
#[unsafe(no_mangle)]
pub extern "C" fn sgh_crc(bytes: &[u8]) -> u16
    ensures { result ≡ crc_of bytes.now }
{
    sartrogheo::sgh_crc(bytes)
}

// The next event of a payload, and the reader behind it.
#[unsafe(no_mangle)]
pub extern "C" fn sgh_next_event(input: &[u8], reader: &mut [u64; 3], event: &mut [u64; 24]) -> u32
    ensures { reply result (reader.new ∷ event.new ∷ []) ≡ sgh_next_event input.now reader.old }
{
    sartrogheo::sgh_next_event(input, reader, event)
}

// Writes an event, whose strings are parts of `strings`, where the writer is.
#[unsafe(no_mangle)]
pub extern "C" fn sgh_write_event(
    out: &mut [u8],
    strings: &[u8],
    event: &[u64; 24],
    writer: &mut [u64; 4],
) -> u32
    ensures { reply result (out.new ∷ writer.new ∷ []) ≡ sgh_write_event out.old strings.now event.now writer.old }
{
    sartrogheo::sgh_write_event(out, strings, event, writer)
}

// The message at a place, whatever follows it, and the rows of its entries.
#[unsafe(no_mangle)]
pub extern "C" fn sgh_read_message(
    input: &[u8],
    at: usize,
    table: &mut [u32],
    message: &mut [u64; 50],
) -> u32
    ensures { reply result (table.new ∷ message.new ∷ []) ≡ sgh_read_message input.now at table.old }
{
    sartrogheo::sgh_read_message(input, at, table, message)
}

// The rows of the message at a place, sorted in the table.
#[unsafe(no_mangle)]
pub extern "C" fn sgh_build_index(
    input: &[u8],
    at: usize,
    table: &mut [u32],
    index: &mut [u64; 5],
) -> u32
    ensures { reply result (table.new ∷ index.new ∷ []) ≡ sgh_build_index input.now at table.old }
{
    sartrogheo::sgh_build_index(input, at, table, index)
}

// The first row with exactly that name, in any table; else the row stays as it was.
#[unsafe(no_mangle)]
pub extern "C" fn sgh_look_up(input: &[u8], table: &[u32], name: &[u8], row: &mut [u32; 4]) -> u32
    ensures { reply result (row.new ∷ []) ≡ sgh_look_up input.now table.now name.now row.old }
{
    sartrogheo::sgh_look_up(input, table, name, row)
}

// What begins at a place, whatever follows it.
#[unsafe(no_mangle)]
pub extern "C" fn sgh_read_item(input: &[u8], at: usize, item: &mut [u64; 9]) -> u32
    ensures { reply result (item.new ∷ []) ≡ sgh_read_item input.now at }
{
    sartrogheo::sgh_read_item(input, at, item)
}

// How many bytes the whole element at a place takes, and how many leaves it has.
#[unsafe(no_mangle)]
pub extern "C" fn sgh_walk(input: &[u8], at: usize, element: &mut [u64; 5]) -> u32
    ensures { reply result (element.new ∷ []) ≡ sgh_walk input.now at }
{
    sartrogheo::sgh_walk(input, at, element)
}

// What is lost next behind the recording's first `from` bytes, and why.
#[unsafe(no_mangle)]
pub extern "C" fn sgh_next_loss(
    recording: &[u8],
    way: u8,
    buf: &mut [u8],
    from: usize,
    loss: &mut [u64; 3],
) -> u32
    ensures { reply result (buf.new ∷ loss.new ∷ []) ≡ sgh_next_loss recording.now way buf.old from }
{
    sartrogheo::sgh_next_loss(recording, way, buf, from, loss)
}

// Pushes bytes up to and with the first that brings a payload or a loss.
#[unsafe(no_mangle)]
pub extern "C" fn sgh_watch_slice(
    bytes: &mut [u8; 28],
    watch: &mut [u64; 4],
    buf: &mut [u8],
    chunk: &[u8],
    taken: &mut usize,
    loss: &mut [u64; 3],
) -> u32
    ensures { reply result (bytes.new ∷ watch.new ∷ buf.new ∷ (taken.new ∷ []) ∷ loss.new ∷ []) ≡ sgh_watch_slice bytes.old watch.old buf.old chunk.now }
{
    sartrogheo::sgh_watch_slice(bytes, watch, buf, chunk, taken, loss)
}

// The recording ends: what is left is lost.
#[unsafe(no_mangle)]
pub extern "C" fn sgh_watch_end(
    bytes: &mut [u8; 28],
    watch: &mut [u64; 4],
    loss: &mut [u64; 3],
) -> u32
    ensures { reply result (bytes.new ∷ watch.new ∷ loss.new ∷ []) ≡ sgh_watch_end bytes.old watch.old }
{
    sartrogheo::sgh_watch_end(bytes, watch, loss)
}
