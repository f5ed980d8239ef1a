// An index of a message's entries, for who asks for names many times: Q-13's rows sorted by name in the lent table, and a lookup in any table. sml-rs has none.
// The rows are sorted by a heap in their own place: n rows, n below 2 to the l, take at most 3 * l * n + n comparisons.
#![tactic(auto)]

ghost use Rattle.std.specs.Prelude.{◌≡◌, true, ◌+◌, ◌*◌, ◌/◌, ◌^◌, ◌<◌, ◌≤◌, length};
ghost use Rattle.refusals.specs.Answers.{opt_of};
ghost use Rattle.octet_string.specs.Strings.{span_within};
ghost use Rattle.whole.specs.Cut.{put_row};
ghost use Rattle.index.specs.Index.{before, sorted_to, index_to, has_name, look_up_in};
ghost use Rattle.index.specs.Answers.{entry_row, indexed, after_index, found_by};
ghost use Rattle.index.specs.Rows.{nth_row, four_row, exchanged, Distinct};
ghost use Rattle.index.specs.Heap.{Heap, Top, LargerOf, Done, RowsKept};
ghost use Rattle.index.specs.Few.{Sunk, Turns, Few};
ghost use Rattle.index.specs.Sought.{sound_at, sought_at};

use refusals::Span;
use std::cmp::Ordering;
use whole::WholeError;

// Where an entry's name stands, and where the entry does.
#[derive(Clone, Copy, PartialEq, Eq)]
pub struct Row {
    pub name: Span,
    pub entry: Span,
}

// `rows` is how many rows stand in the table, `next` the place behind the message.
#[derive(Clone, Copy, PartialEq, Eq)]
pub struct Indexed {
    pub rows: usize,
    pub next: usize,
}

// BadSpan is 16: part of a row, a row outside the input, or one that isn't strictly before the next.
#[derive(Clone, Copy, PartialEq, Eq)]
pub enum FindError {
    InputTooLong,
    BadSpan,
}

// ---- rows in the table
// Sorting goes by numbers of rows in the flat table, which the C interface lends: of as_chunks_mut no contract says what the table ends as.

// The numbers of row i.
#[tactic(auto, unfolding(crate::specs::Rows::four_row, crate::specs::Rows::nth_row))]
fn four_at(table: &[u32], i: usize) -> [u32; 4]
    requires { 4 * i + 3 < length table.now }
    ensures { four_row result ≡ nth_row table.now i }
{
    let at = 4 * i;
    [table[at], table[at + 1], table[at + 2], table[at + 3]]
}

// Row i becomes these numbers, one by one. Tried: copy_from_slice, by which sorting 2,000 rows took 85 more instructions a row than before, which was the bar.
fn put_row(table: &mut [u32], i: usize, r: [u32; 4])
    requires { 4 * i + 3 < length table.old }
    ensures { table.new ≡ put_row table.old i (four_row r) }
{
    let at = 4 * i;
    table[at] = r[0];
    table[at + 1] = r[1];
    table[at + 2] = r[2];
    table[at + 3] = r[3];
}

// Rows i and j change places: all that sorting does to the table.
#[tactic(auto, unfolding(crate::specs::Rows::exchanged))]
fn exchange(table: &mut [u32], i: usize, j: usize)
    requires { (i < j) × (4 * j + 3 < length table.old) }
    ensures { table.new ≡ exchanged table.old i j }
{
    let p = four_at(table, i);
    let q = four_at(table, j);
    put_row(table, i, q);
    put_row(table, j, p);
}

// A row's numbers as spans of the input.
#[tactic(auto, unfolding(crate::specs::Rows::four_row, crate::specs::Rows::row_from, crate::specs::Answers::entry_row))]
fn as_row(numbers: [u32; 4]) -> Row
    ensures { entry_row result ≡ four_row numbers }
{
    let name = Span {
        start: numbers[0] as usize,
        len: numbers[1] as usize,
    };
    let entry = Span {
        start: numbers[2] as usize,
        len: numbers[3] as usize,
    };
    Row { name, entry }
}

// By the names' bytes, then by the entries' places.
#[tactic(auto, unfolding(crate::specs::Answers::entry_row), using(crate::proofs::Order::before_less, crate::proofs::Order::before_equal, crate::proofs::Order::before_greater))]
fn comes_before(input: &[u8], p: Row, q: Row) -> bool
    ensures { result ≡ before input.now (entry_row p) (entry_row q) }
{
    let x = octet_string::octet_str(input, p.name);
    let y = octet_string::octet_str(input, q.name);
    match name_order::compare(x, y) {
        Ordering::Less => true,
        Ordering::Equal => p.entry.start < q.entry.start,
        Ordering::Greater => false,
    }
}

// ---- sorting
// Input, table and count go together, but a struct that lent the table would add to each contract that it still lends the same one.
// `spent` is a number that runs along: a ghost field holds a fact, and no count.

// Whether row i comes before row j. Sorting compares here and nowhere else, and `*spent += 1` alone changes what is spent.
fn is_before(input: &[u8], table: &[u32], i: usize, j: usize, spent: &mut usize) -> bool
    requires { (4 * i + 3 < length table.now) × (4 * j + 3 < length table.now) × (spent.old < 2 ^ 63) }
    ensures { (result ≡ before input.now (nth_row table.now i) (nth_row table.now j)) × (spent.new ≡ spent.old + 1) }
{
    *spent += 1;
    comes_before(input, as_row(four_at(table, i)), as_row(four_at(table, j)))
}

// Of the rows i and j the one that the other is not behind; i where j is no row before `end`.
fn larger_of(
    input: &[u8],
    table: &[u32],
    end: usize,
    i: usize,
    j: usize,
    spent: &mut usize,
) -> usize
    requires { (i < end) × (4 * end ≤ length table.now) × (spent.old < 2 ^ 63) }
    ensures { LargerOf (before input.now) end i j result (nth_row table.now) × (spent.new ≤ spent.old + 1) }
{
    if j < end && is_before(input, table, i, j, spent) {
        j
    } else {
        i
    }
}

// Of row i and the two under it the one that none of them is behind. Without the hint sorting 2,000 rows took 200 more instructions a row.
#[inline(always)]
fn heap_top(input: &[u8], table: &[u32], end: usize, i: usize, spent: &mut usize) -> usize
    requires { (i < end) × (4 * end ≤ length table.now) × (spent.old < 2 ^ 62) }
    ensures { Top (before input.now) end i result (nth_row table.now) × (spent.new ≤ spent.old + 2) }
{
    let left = larger_of(input, table, end, i, 2 * i + 1, spent);
    larger_of(input, table, end, left, 2 * i + 2, spent)
}

// Row `at` sinks until no row under it is behind it: no index is counted, and nothing else says when it ends.
#[tactic(auto, using(crate::proofs::Steps::sink_down, crate::proofs::Steps::sink_room))]
fn sink(input: &[u8], table: &mut [u32], at: usize, end: usize, spent: &mut usize)
    requires { (at < end) × (end < 2 ^ 32) × (4 * end ≤ length table.old) × (spent.old < 2 ^ 61) × Heap (before input.now) (at + 1) end (nth_row table.old) }
    ensures { Sunk end spent.old spent.new × Heap (before input.now) at end (nth_row table.new) × RowsKept end table.new table.old }
{
    let mut i = at;
    let mut c = heap_top(input, table, end, i, spent);
    while c != i {
        exchange(table, i, c);
        i = c;
        c = heap_top(input, table, end, i, spent);
    }
}

// The first n rows become a heap.
#[tactic(auto, using(crate::proofs::Heap::heap_all, crate::proofs::Few::turns_next, crate::proofs::Few::turns_end, crate::proofs::Steps::heap_next, crate::proofs::Steps::heap_before))]
fn make_heap(input: &[u8], table: &mut [u32], n: usize, spent: &mut usize)
    requires { (n < 2 ^ 32) × (4 * n ≤ length table.old) × (spent.old < 2 ^ 60) }
    ensures { Turns n (n / 2) spent.old spent.new × Heap (before input.now) 0 n (nth_row table.new) × RowsKept n table.new table.old }
{
    for lo in (0..n / 2).rev() {
        sink(input, table, lo, n, spent);
    }
}

// The top of the heap goes to its end, and the heap shrinks, until each row is in its place.
#[tactic(auto, using(crate::proofs::Few::turns_begin, crate::proofs::Few::turns_end, crate::proofs::Steps::settle_begin, crate::proofs::Steps::settle_end))]
fn settle(input: &[u8], table: &mut [u32], n: usize, spent: &mut usize)
    requires { (n < 2 ^ 32) × (4 * n ≤ length table.old) × (spent.old < 2 ^ 60) × Heap (before input.now) 0 n (nth_row table.old) }
    ensures { Turns n n spent.old spent.new × Done (before input.now) 1 n (nth_row table.new) × RowsKept n table.new table.old }
{
    for end in (1..n).rev() {
        exchange(table, 0, end);
        sink(input, table, 0, end, spent);
    }
}

// Whether each row is before the next.
#[tactic(auto, using(crate::proofs::Heap::order_begin, crate::proofs::Heap::order_next, crate::proofs::Heap::order_end, crate::proofs::Rows::before_order))]
fn in_order(input: &[u8], table: &[u32], n: usize, spent: &mut usize) -> bool
    requires { (n < 2 ^ 32) × (4 * n ≤ length table.now) × (spent.old < 2 ^ 60) }
    ensures { (result ≡ true → Done (before input.now) 1 n (nth_row table.now)) × (spent.new ≤ spent.old + n) }
{
    for i in 1..n {
        if !is_before(input, table, i - 1, i, spent) {
            return false;
        }
    }
    true
}

// The first n rows are sorted in place, the rest stays as it was, with few comparisons.
#[tactic(auto, using(crate::proofs::Few::few_less, crate::proofs::Rows::table_sorted, crate::proofs::Rows::kept_none))]
fn sort_rows(input: &[u8], table: &mut [u32], n: usize, spent: &mut usize)
    requires { (n < 2 ^ 32) × (4 * n ≤ length table.old) × Distinct table.old n × (spent.old < 2 ^ 58) }
    ensures { (table.new ≡ sorted_to input.now n table.old) × Few n spent.old spent.new }
{
    if in_order(input, table, n, spent) {
        return;
    }
    make_heap(input, table, n, spent);
    settle(input, table, n, spent);
}

// Reads the message at `at`, whatever follows it, and leaves the rows of its entries in the table, sorted.
pub fn build_index(input: &[u8], at: usize, table: &mut [u32]) -> Result<Indexed, WholeError>
    ensures { after_index (indexed result) table.new ≡ index_to input.now at table.old }
{
    let message = whole::read_message(input, at, table)?;
    let mut spent = 0;
    sort_rows(input, table, message.rows, &mut spent);
    Ok(Indexed {
        rows: message.rows,
        next: message.next,
    })
}

// ---- a lookup

// Whether a span lies within the input: check_span has no refusal for it.
#[tactic(auto, using(crate::proofs::Sought::within_ok))]
fn is_within(input: &[u8], span: Span) -> bool
    ensures { result ≡ span_within input.now span }
{
    octet_string::check_span(input, span).is_ok()
}

// A row lies within the input, and behind the row before it.
#[tactic(auto, unfolding(crate::specs::Sought::sound_at, crate::specs::Index::row_within, crate::specs::Answers::entry_row))]
fn row_is_sound(input: &[u8], before: Option<Row>, row: Row) -> bool
    ensures { result ≡ sound_at input.now (opt_of entry_row before) (entry_row row) }
{
    if !is_within(input, row.name) || !is_within(input, row.entry) {
        return false;
    }
    match before {
        Some(r) => comes_before(input, r, row),
        None => true,
    }
}

// Whether a row has exactly that name.
#[tactic(auto, unfolding(crate::specs::Answers::entry_row), using(crate::proofs::Order::named_as))]
fn has_name(input: &[u8], row: Row, name: &[u8]) -> bool
    ensures { result ≡ has_name input.now name.now (entry_row row) }
{
    name_order::compare(octet_string::octet_str(input, row.name), name) == Ordering::Equal
}

// The row that was found before, else this one if it has the name.
#[tactic(auto, unfolding(crate::specs::Sought::sought_at))]
fn first_of(input: &[u8], found: Option<Row>, row: Row, name: &[u8]) -> Option<Row>
    ensures { opt_of entry_row result ≡ sought_at (has_name input.now name.now) (opt_of entry_row found) (entry_row row) }
{
    if found.is_none() && has_name(input, row, name) {
        return Some(row);
    }
    found
}

// The first row with exactly that name. One pass judges all rows, also those behind it, since any table may be lent.
#[tactic(auto, using(crate::proofs::Sought::look_long, crate::proofs::Sought::look_part))]
pub fn look_up(input: &[u8], table: &[u32], name: &[u8]) -> Result<Option<Row>, FindError>
    ensures { found_by result ≡ look_up_in input.now table.now name.now }
{
    if refusals::LIMIT < input.len() {
        return Err(FindError::InputTooLong);
    }
    let (rows, rest) = table.as_chunks::<4>();
    if !rest.is_empty() {
        return Err(FindError::BadSpan);
    }
    let mut before = None;
    let mut found = None;
    for numbers in rows {
        let row = as_row(*numbers);
        if !row_is_sound(input, before, row) {
            return Err(FindError::BadSpan);
        }
        found = first_of(input, found, row, name);
        before = Some(row);
    }
    Ok(found)
}
