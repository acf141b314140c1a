// A stream to try segments on.
use automaton::{Table, WordList};
use sequence::Place;
use std::fmt::Debug;
use std::test::Fail;
use stream::{Part, Passed, Refused, Stream, WordAt};

// What is answered on a segment.
pub type Answer = Result<Option<Passed>, Refused>;

#[derive(Drop)]
pub struct Bench {
    pub table: Table,
    // its window has 1,024 places
    pub stream: Stream,
    // which of many cases is tried, told where one fails
    pub case: usize,
}

impl Bench {
    pub fn new(rt: &HostRuntime, words: &[u8]) -> Result<Bench, Fail> {
        let (list, _) = WordList::read(rt.alloc(), words)?;
        let table = Table::build(rt.alloc(), &list)?;
        match Stream::new(rt.alloc(), 10) {
            Ok(stream) => Ok(Bench {
                table,
                stream,
                case: 0,
            }),
            Err(_) => Err(Fail::new("no stream")),
        }
    }

    // A segment comes: the answer, and the lent bytes then, are these.
    pub fn sends<const N: usize>(
        &mut self,
        at: Place,
        came: [u8; N],
        fin: bool,
        answer: Answer,
        left: [u8; N],
    ) -> Result<(), Fail> {
        let mut bytes = came;
        let taken = self.stream.take(&self.table, at, &mut bytes, fin);
        self.check_eq(&taken, &answer)?;
        self.check_eq(&bytes, &left)
    }

    // The end of the text, and up to where the receiver may acknowledge.
    pub fn reaches(&self, end: u64, limit: u64) -> Result<(), Fail> {
        self.check_eq(&self.stream.marks().end, &end)?;
        self.check_eq(&self.stream.ack_limit(), &limit)
    }

    // A failure, unless two values are equal, tells both and the case.
    pub fn check_eq<T: PartialEq + Debug>(&self, is: &T, wanted: &T) -> Result<(), Fail> {
        if is == wanted {
            return Ok(());
        }
        let case = self.case;
        Err(Fail::new(format_args!("case {case}: {is:?} in place of {wanted:?}")))
    }
}

// Bytes that go on without a FIN.
pub fn passed(start: usize, end: usize, place: u64) -> Answer {
    passed_fin(start, end, place, None)
}

// Bytes, or none, and a FIN where one goes on.
pub fn passed_fin(start: usize, end: usize, place: u64, fin: Option<u64>) -> Answer {
    let part = Part { start, end, place };
    Ok(Some(Passed { part, fin }))
}

pub fn word_at(place: u64, word: u8) -> Answer {
    Err(Refused::Word(WordAt { place, word }))
}
