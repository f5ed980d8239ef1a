// A walk over one whole element of any content (document 02, Q-4): how many bytes it takes, and how many leaves it has.
#![tactic(auto)]

ghost use Rattle.std.specs.Prelude.{◌≡◌};
ghost use Rattle.std.proofs.Math.Option.{some};
ghost use Rattle.walk.specs.Walk.{is_end_mark, item_at, walk_at};
ghost use Rattle.walk.specs.Cut.{elements_at, element_at};
ghost use Rattle.walk.specs.Answers.{item_read, reached, walked};
ghost use Rattle.walk.specs.declared.WalkError.TheVariants as WalkErrorC;

use refusals::{Fault, ResTy, Span};
use tlf::{Ty, TypeLengthField};

// So many lists may be open, the outermost counted.
const DEEPEST: u32 = 16;

// What begins at a place.
#[derive(Clone, Copy, PartialEq, Eq)]
pub enum Item {
    EndMark,
    Leaf { ty: Ty, content: Span },
    List { count: u32 },
}

// How many bytes an element takes, and how many leaves it has.
#[derive(Clone, Copy, PartialEq, Eq)]
pub struct Extent {
    pub bytes: usize,
    pub leaves: usize,
}

// Why there is no element to measure.
#[derive(Clone, Copy, PartialEq, Eq)]
pub enum WalkError {
    Fault(Fault),
    TooDeep { place: usize },
    InputTooLong,
}

impl From<Fault> for WalkError {
    ghost from_gives = { λ fault error. error ≡ WalkErrorC.Fault fault };

    // For `?`: a reading's refusal is the walk's.
    fn from(fault: Fault) -> WalkError {
        WalkError::Fault(fault)
    }
}

// The byte 00 on its own: the length rules refuse it, so it is looked for before them.
#[tactic(auto, unfolding(crate::specs::Walk::is_end_mark))]
fn is_end_mark(input: &[u8], at: usize) -> bool
    ensures { result ≡ is_end_mark input.now at }
{
    at < input.len() && input[at] == 0
}

// What begins at `at`, with the place behind an end mark or a leaf, or behind the length bytes of a list.
#[tactic(auto, unfolding(crate::specs::Walk::item_at, refusals::specs::Read::then), using(crate::proofs::Items::mark_room))]
pub fn parse_item(input: &[u8], at: usize) -> ResTy<Item>
    ensures { item_read result ≡ item_at input.now at }
{
    if is_end_mark(input, at) {
        return Ok((Item::EndMark, at + 1));
    }
    let (tlf, next) = TypeLengthField::parse(input, at)?;
    if tlf.ty.is_list() {
        return Ok((Item::List { count: tlf.len }, next));
    }
    let (content, end) = refusals::take_n(input, next, tlf.len as usize)?;
    Ok((
        Item::Leaf {
            ty: tlf.ty,
            content,
        },
        end,
    ))
}

// One whole element, in which lists may open `depth` deep: its leaves and the place behind it.
#[cycle(element_list)]
#[tactic(auto, unfolding(crate::specs::Cut::element_by, crate::specs::Cut::behind_item, refusals::specs::Read::then, refusals::specs::Read::need), using(crate::proofs::Ties::element_is))]
fn element(input: &[u8], at: usize, depth: u32) -> Result<(usize, usize), WalkError>
    ensures { reached result ≡ some (element_at depth input.now at) }
{
    let (item, next) = parse_item(input, at)?;
    let Item::List { count } = item else {
        return Ok((1, next));
    };
    if depth == 0 {
        return Err(WalkError::TooDeep { place: at });
    }
    list(input, next, count, depth - 1)
}

// `count` elements, one behind the other: a loop, since a call for each would let a long list fill the stack.
#[cycle(element_list)]
#[tactic(auto, unfolding(refusals::specs::Read::then), using(crate::proofs::Counts::row_more, crate::proofs::Counts::row_none, crate::proofs::Counts::element_ok))]
fn list(input: &[u8], at: usize, count: u32, depth: u32) -> Result<(usize, usize), WalkError>
    ensures { reached result ≡ some (elements_at (element_at depth input.now) count 0 at) }
{
    let mut n = at;
    let mut sum = 0;
    for _ in 0..count {
        let (leaves, next) = element(input, n, depth)?;
        sum += leaves;
        n = next;
    }
    Ok((sum, n))
}

// How many bytes the element at `at` takes, whatever follows it, and how many leaves it has.
#[tactic(auto, using(crate::proofs::Ties::walk_is_lem, crate::proofs::Counts::element_ok))]
pub fn walk(input: &[u8], at: usize) -> Result<Extent, WalkError>
    ensures { walked result ≡ walk_at input.now at }
{
    if refusals::LIMIT < input.len() {
        return Err(WalkError::InputTooLong);
    }
    let (leaves, next) = element(input, at, DEEPEST)?;
    Ok(Extent {
        bytes: next - at,
        leaves,
    })
}
