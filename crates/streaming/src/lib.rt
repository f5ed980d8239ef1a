// Ports Parser::parse_next and next of parser/streaming.rs, by value: the reader is three numbers beside its input.
#![tactic(auto)]

ghost use Rattle.std.specs.Prelude.{◌≡◌, ◌-◌, ◌≤◌, length, Ok, Err, Some};
ghost use Rattle.message.specs.Answers.{message_body};
ghost use Rattle.streaming.specs.Next.{pending_of, begin_at, trailer_next, end_next, entry_next, step_at, is_sound, next_at};
ghost use Rattle.streaming.specs.Answers.{reader_after};
ghost use Rattle.streaming.specs.declared.ReadError.TheVariants as Errors;

use common::ListEntry;
use message::{GetListResponseEnd, MessageBody, MessageStart};
use numbers::SmlParse;
use refusals::Fault;

#[derive(Clone, Copy, PartialEq, Eq)]
pub enum ParseEvent {
    MessageStart(MessageStart),
    GetListResponseEnd(GetListResponseEnd),
    ListEntry(ListEntry),
}

// A refusal of a reading, or one that stands at no place of the input.
#[derive(Clone, Copy, PartialEq, Eq)]
pub enum ReadError {
    Refused(Fault),
    InputTooLong,
    BadState,
}

impl From<Fault> for ReadError {
    ghost from_gives = { λ f e. e ≡ Errors.Refused f };

    // The Rust's only error.
    fn from(f: Fault) -> ReadError {
        ReadError::Refused(f)
    }
}

// What a call says, as parse_next of the Rust: an event, or none where the input has ended.
pub type Answer = Result<Option<ParseEvent>, ReadError>;

// What a reader keeps beside its input: the place, where the message there began, and how much of it is pending, the Rust's pending_list_entries.
#[derive(Clone, Copy, PartialEq, Eq)]
pub struct Reader {
    pub place: usize,
    pub start: usize,
    pub pending: u64,
}

// The answer, and the reader after it.
#[derive(Clone, Copy)]
pub struct Next {
    pub answer: Answer,
    pub reader: Reader,
}

// How much is pending behind a message's start.
fn pending_of(body: MessageBody) -> u64
    ensures { result ≡ pending_of (message_body body) }
{
    match body {
        MessageBody::OpenResponse(_) | MessageBody::CloseResponse(_) => 1,
        MessageBody::GetListResponse(list) => list.num_vals as u64 + 2,
    }
}

impl Reader {
    // An event, and the reader behind it.
    fn brings(self, event: ParseEvent, place: usize, pending: u64) -> Next
        ensures { result ≡ record { answer = Ok (Some event); reader = record { place = place; start = self.start; pending = pending } } }
    {
        Next {
            answer: Ok(Some(event)),
            reader: Reader {
                place,
                start: self.start,
                pending,
            },
        }
    }

    // A refusal drops the rest of the input.
    fn refused(self, f: Fault, end: usize, pending: u64) -> Next
        ensures { result ≡ record { answer = Err (Errors.Refused f); reader = record { place = end; start = self.start; pending = pending } } }
    {
        Next {
            answer: Err(ReadError::from(f)),
            reader: Reader {
                place: end,
                start: self.start,
                pending,
            },
        }
    }

    // Between messages: the case `0` of the Rust, and the empty input before it.
    #[tactic(auto, unfolding(crate::specs::Next::begin_at, crate::specs::Next::onward))]
    fn begin(self, input: &[u8]) -> Next
        ensures { reader_after result ≡ begin_at input.now self.place self.start }
    {
        if input.len() <= self.place {
            return Next {
                answer: Ok(None),
                reader: Reader {
                    place: self.place,
                    start: self.start,
                    pending: 0,
                },
            };
        }
        let begun = Reader {
            place: self.place,
            start: self.place,
            pending: 0,
        };
        match MessageStart::parse(input, self.place) {
            Ok((message, next)) => {
                let pending = pending_of(message.message_body);
                begun.brings(ParseEvent::MessageStart(message), next, pending)
            }
            Err(f) => begun.refused(f, input.len(), 0),
        }
    }

    // The case `1`: the trailer, and with it the start of the next message.
    #[tactic(auto, unfolding(crate::specs::Next::trailer_next, crate::specs::Next::onward))]
    fn trailer_next(self, input: &[u8]) -> Next
        ensures { reader_after result ≡ trailer_next input.now self.place self.start }
    {
        match trailer::parse_trailer(input, self.start, self.place) {
            Ok(next) => {
                let behind = Reader {
                    place: next,
                    start: self.start,
                    pending: 0,
                };
                behind.begin(input)
            }
            Err(f) => self.refused(f, input.len(), 1),
        }
    }

    // The case `2`: a list's end.
    #[tactic(auto, unfolding(crate::specs::Next::end_next, crate::specs::Next::onward))]
    fn end_next(self, input: &[u8]) -> Next
        ensures { reader_after result ≡ end_next input.now self.place self.start }
    {
        match GetListResponseEnd::parse(input, self.place) {
            Ok((response, next)) => self.brings(ParseEvent::GetListResponseEnd(response), next, 1),
            Err(f) => self.refused(f, input.len(), 2),
        }
    }

    // Every other case: an entry.
    #[tactic(auto, unfolding(crate::specs::Next::entry_next, crate::specs::Next::onward))]
    fn entry_next(self, input: &[u8]) -> Next
        requires { 3 ≤ self.pending }
        ensures { reader_after result ≡ entry_next input.now self.place self.start (self.pending - 1) }
    {
        match ListEntry::parse(input, self.place) {
            Ok((entry, next)) => self.brings(ParseEvent::ListEntry(entry), next, self.pending - 1),
            Err(f) => self.refused(f, input.len(), self.pending),
        }
    }

    // The next event of a sound reader: the `match` of the Rust.
    #[tactic(auto, unfolding(crate::specs::Next::step_at), using(crate::proofs::Laws::step_more))]
    fn next_event(self, input: &[u8]) -> Next
        ensures { reader_after result ≡ step_at input.now self.place self.start self.pending }
    {
        match self.pending {
            0 => self.begin(input),
            1 => self.trailer_next(input),
            2 => self.end_next(input),
            _ => self.entry_next(input),
        }
    }

    // Not a bad state: place within an input that ends at `end`, message start not beyond it, not too much pending.
    fn is_sound(self, end: usize) -> bool
        ensures { result ≡ is_sound end self.place self.start self.pending }
    {
        self.place <= end && self.start <= self.place && self.pending <= 4_294_967_297
    }

    // The next event of `input`, and the reader behind it.
    #[tactic(auto, unfolding(crate::specs::Next::next_at))]
    pub fn parse_next(self, input: &[u8]) -> Next
        ensures { reader_after result ≡ next_at input.now self.place self.start self.pending }
    {
        if refusals::LIMIT < input.len() {
            return Next {
                answer: Err(ReadError::InputTooLong),
                reader: self,
            };
        }
        if self.is_sound(input.len()) {
            return self.next_event(input);
        }
        Next {
            answer: Err(ReadError::BadState),
            reader: self,
        }
    }
}
