// The static library of what bench/run counts the instructions of: the functions of crate bench, with their clauses.
#![tactic(auto)]

ghost use Rattle.std.specs.Prelude.{◌≡◌};
ghost use Rattle.crc_x25.specs.Crc.{crc_of};
ghost use Rattle.decoder.specs.Push.{first_way, second_way, sized};
ghost use Rattle.decoder.specs.Record.{new_record};
ghost use Rattle.packed.specs.Packed.{pack_into};
ghost use Rattle.common.specs.Fields.{entry_at};
ghost use Rattle.bench.specs.Bench.{counted, payloads, took_in, took_over, encoded, streamed, events, writes_of_entry};

// The payloads in `src`, by single pushes.
#[unsafe(no_mangle)]
pub extern "C" fn bench_push(src: &[u8], buf: &mut [u8]) -> u64
    ensures { counted result buf.new ≡ payloads first_way src.now buf.old }
{
    bench::bench_push(src, buf)
}

// The payloads in `src`, by pushes of slices of `step` bytes at most, or of all that are left for 0: how they are cut changes nothing.
#[unsafe(no_mangle)]
pub extern "C" fn bench_push_slice(src: &[u8], buf: &mut [u8], step: usize) -> u64
    ensures { counted result buf.new ≡ payloads first_way src.now buf.old }
{
    bench::bench_push_slice(src, buf, step)
}

// The same in the second way of searching.
#[unsafe(no_mangle)]
pub extern "C" fn bench_push_slice_second(src: &[u8], buf: &mut [u8], step: usize) -> u64
    ensures { counted result buf.new ≡ payloads second_way src.now buf.old }
{
    bench::bench_push_slice_second(src, buf, step)
}

// A new decoder of this capacity, packed into `bytes`, for bench_packed.
#[unsafe(no_mangle)]
pub extern "C" fn bench_pack(bytes: &mut [u8], capacity: usize)
    ensures { bytes.new ≡ (pack_into (new_record (sized capacity)) bytes.old).output }
{
    bench::bench_pack(bytes, capacity);
}

// One push of a slice over the bytes of a decoder: how many bytes it took.
#[unsafe(no_mangle)]
pub extern "C" fn bench_packed(bytes: &mut [u8], buf: &mut [u8], chunk: &[u8]) -> usize
    ensures { took_in result bytes.new buf.new ≡ took_over bytes.old buf.old chunk.now }
{
    bench::bench_packed(bytes, buf, chunk)
}

// The length of the payload's frame, which goes to `out`.
#[unsafe(no_mangle)]
pub extern "C" fn bench_encode(payload: &[u8], out: &mut [u8]) -> u64
    ensures { counted result out.new ≡ encoded payload.now out.old }
{
    bench::bench_encode(payload, out)
}

// The sum of the bytes of the payload's frame, by an Encoder.
#[unsafe(no_mangle)]
pub extern "C" fn bench_stream(payload: &[u8]) -> u64
    ensures { result ≡ streamed payload.now }
{
    bench::bench_stream(payload)
}

// The events of `input`, up to the first call that brings none.
#[unsafe(no_mangle)]
pub extern "C" fn bench_events(input: &[u8]) -> u64
    ensures { result ≡ events input.now }
{
    bench::bench_events(input)
}

// The check value of `src`.
#[unsafe(no_mangle)]
pub extern "C" fn bench_crc(src: &[u8]) -> u64
    ensures { result ≡ crc_of src.now }
{
    bench::bench_crc(src)
}

// The check value of `src`, a byte a call.
#[unsafe(no_mangle)]
pub extern "C" fn bench_crc_byte(src: &[u8]) -> u64
    ensures { result ≡ crc_of src.now }
{
    bench::bench_crc_byte(src)
}

// The entry at the input's start, written so many times.
#[unsafe(no_mangle)]
pub extern "C" fn bench_write(input: &[u8], out: &mut [u8], count: u32) -> u64
    ensures { counted result out.new ≡ writes_of_entry (entry_at input.now 0) out.old count input.now }
{
    bench::bench_write(input, out, count)
}
