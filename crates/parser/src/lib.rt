// A reader of messages that keeps hold of the input it was given, as Parser of parser/streaming.rs does. It is thin: Reader::parse_next does the work.
#![tactic(auto)]

ghost use Rattle.std.specs.Prelude.{◌≡◌};
ghost use Rattle.streaming.specs.Next.{next_at};
ghost use Rattle.streaming.specs.Answers.{reader_after};
ghost use Rattle.parser.specs.Reader.{reader_of, after_next, called_next};

use streaming::{Answer, Next, Reader};

// The input, and what a reader of it keeps.
#[derive(Clone, Copy)]
pub struct Parser<'i> {
    pub input: &'i [u8],
    pub reader: Reader,
}

impl<'i> Parser<'i> {
    // Parser::new of streaming.rs: nothing of the input is read yet.
    pub fn new(input: &'i [u8]) -> Parser<'i>
        ensures { result ≡ reader_of input.entry }
    {
        let reader = Reader {
            place: 0,
            start: 0,
            pending: 0,
        };
        Parser { input, reader }
    }

    // The next event; the reader goes on behind it.
    pub fn next(&mut self) -> Answer
        ensures { after_next result self.new ≡ called_next self.old }
    {
        let n = self.reader.parse_next(self.input);
        self.reader = n.reader;
        n.answer
    }
}

// The same with plain parameters, for a program: a parser at that place is made in a local, which is lent to `next`.
pub fn next_from(input: &[u8], at: usize, start: usize, pending: u64) -> Next
    ensures { reader_after result ≡ next_at input.now at start pending }
{
    let reader = Reader {
        place: at,
        start,
        pending,
    };
    let mut p = Parser { input, reader };
    let answer = p.next();
    Next {
        answer,
        reader: p.reader,
    }
}
