// A whole message in one call, for who doesn't want events: its start, of a list its end, and a row of four numbers for each entry in a lent table.
// Two passes: the first reads up to the end byte and stores nothing, so that a refusal leaves the table as it was; the second stores.
#![tactic(auto)]

ghost use Rattle.std.specs.Prelude.{◌≡◌, [], ◌∷◌, ◌+◌, ◌*◌, ◌-◌, ◌≤◌, ◌<◌, length};
ghost use Rattle.std.proofs.lemmas.List.Edits.{sets};
ghost use Rattle.refusals.specs.Numbers.{limit};
ghost use Rattle.refusals.specs.Answers.{reads_as};
ghost use Rattle.tlf.specs.Answers.{place_read};
ghost use Rattle.message.specs.Answers.{message_body};
ghost use Rattle.whole.specs.declared.WholeError.TheVariants as Errors;
ghost use Rattle.whole.specs.Whole.{read_to};
ghost use Rattle.whole.specs.Answers.{opt_list_end, whole_read, after_whole};
ghost use Rattle.whole.specs.Cut.{entries_of, past_entries, list_end_behind, end_at, passed_message, pass_at, store_rows};

use common::ListEntry;
use message::{GetListResponseEnd, MessageBody, MessageStart};
use numbers::SmlParse;
use refusals::{Fault, ResTy, Span};

// A message: `rows` is how many rows stand in the table, `next` the place behind its end byte.
#[derive(Clone, Copy, PartialEq, Eq)]
pub struct WholeMessage {
    pub start: MessageStart,
    pub end: Option<GetListResponseEnd>,
    pub rows: usize,
    pub next: usize,
}

// A refusal at a place of the input, or one at none.
#[derive(Clone, Copy, PartialEq, Eq)]
pub enum WholeError {
    Fault(Fault),
    InputTooLong,
    BadState,
    TooManyEntries,
}

impl From<Fault> for WholeError {
    ghost from_gives = { λ f error. error ≡ Errors.Fault f };

    // For `?` where a message is read.
    fn from(f: Fault) -> WholeError {
        WholeError::Fault(f)
    }
}

// ---- the first pass

// How many entries a body has.
fn entries_of(body: MessageBody) -> usize
    ensures { result ≡ entries_of (message_body body) }
{
    match body {
        MessageBody::GetListResponse(list) => list.num_vals as usize,
        _ => 0,
    }
}

// Past `n` entries; each takes a byte at least, so that a number that no input holds ends with the input.
#[tactic(auto, using(crate::proofs::Loops::past_next, crate::proofs::Loops::past_refused, crate::proofs::Loops::past_all))]
fn pass_entries(input: &[u8], at: usize, n: usize) -> Result<usize, Fault>
    ensures { place_read result ≡ past_entries n input.now at }
{
    let mut place = at;
    for _ in 0..n {
        let (_, next) = ListEntry::parse(input, place)?;
        place = next;
    }
    Ok(place)
}

// A list's entries and its end.
#[tactic(auto, unfolding(crate::specs::Cut::list_end_behind, refusals::specs::Read::then))]
fn pass_list(input: &[u8], at: usize, n: usize) -> ResTy<Option<GetListResponseEnd>>
    ensures { reads_as opt_list_end result ≡ list_end_behind n input.now at }
{
    let n = pass_entries(input, at, n)?;
    let (end, next) = GetListResponseEnd::parse(input, n)?;
    Ok((Some(end), next))
}

// What stands between a message's start and its trailer.
#[tactic(auto, unfolding(crate::specs::Cut::end_at))]
fn pass_content(input: &[u8], at: usize, body: MessageBody) -> ResTy<Option<GetListResponseEnd>>
    ensures { reads_as opt_list_end result ≡ end_at (message_body body) input.now at }
{
    match body {
        MessageBody::GetListResponse(list) => pass_list(input, at, list.num_vals as usize),
        _ => Ok((None, at)),
    }
}

// What the first pass has found: `behind` is the place behind the start, where a list's entries stand.
#[derive(Clone, Copy, PartialEq, Eq)]
struct Passed {
    start: MessageStart,
    behind: usize,
    end: Option<GetListResponseEnd>,
}

// The message at `at`, up to its end byte.
#[tactic(auto, unfolding(crate::specs::Cut::pass_at, refusals::specs::Read::then))]
fn pass_message(input: &[u8], at: usize) -> ResTy<Passed>
    ensures { reads_as passed_message result ≡ pass_at input.now at }
{
    let (start, behind) = MessageStart::parse(input, at)?;
    let (end, n) = pass_content(input, behind, start.message_body)?;
    let next = trailer::parse_trailer(input, at, n)?;
    Ok((Passed { start, behind, end }, next))
}

// ---- the second pass

// An entry's row: where its name stands, and where the entry does, from `at` up to `next`.
#[tactic(auto, using(crate::proofs::Rows::copied_sets))]
fn store_row(table: &mut [u32], i: usize, name: Span, at: usize, next: usize)
    requires { (4 * i + 3 < length table.old) × (name.start + name.len ≤ limit) × (at ≤ next) × (next ≤ limit) }
    ensures { table.new ≡ sets table.old (4 * i) (name.start ∷ name.len ∷ at ∷ (next - at) ∷ []) }
{
    let row = [
        name.start as u32,
        name.len as u32,
        at as u32,
        (next - at) as u32,
    ];
    table[4 * i..4 * i + 4].copy_from_slice(&row);
}

// The rows of `n` entries, up to one that is refused: the first pass has seen that none is.
#[tactic(auto, using(crate::proofs::Loops::store_refused, crate::proofs::Loops::store_all))]
fn store_rows(input: &[u8], at: usize, n: usize, table: &mut [u32])
    requires { (length input.now ≤ limit) × (4 * n ≤ length table.old) }
    ensures { table.new ≡ store_rows n input.now at 0 table.old }
{
    let mut place = at;
    for i in 0..n {
        let Ok((entry, next)) = ListEntry::parse(input, place) else {
            return;
        };
        store_row(table, i, entry.obj_name, place, next);
        place = next;
    }
}

// Reads the message at `at`, whatever follows it, and stores the rows of its entries in the table from its first number on.
// The table is flat, four numbers a row: the C interface lends it so.
#[tactic(auto, unfolding(crate::specs::Whole::read_to, crate::proofs::Passes::fill_from), using(crate::proofs::Passes::fill_is))]
pub fn read_message(input: &[u8], at: usize, table: &mut [u32]) -> Result<WholeMessage, WholeError>
    ensures { after_whole (whole_read result) table.new ≡ read_to input.now at table.old }
{
    if refusals::LIMIT < input.len() {
        return Err(WholeError::InputTooLong);
    }
    if input.len() < at {
        return Err(WholeError::BadState);
    }
    let (message, next) = pass_message(input, at)?;
    let rows = entries_of(message.start.message_body);
    if table.len() / 4 < rows {
        return Err(WholeError::TooManyEntries);
    }
    store_rows(input, message.behind, rows, table);
    Ok(WholeMessage {
        start: message.start,
        end: message.end,
        rows,
        next,
    })
}
