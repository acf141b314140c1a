// Word lists are written as `\x02\x03abc\x02bd`: how many words, then each with its length before it.
use automaton::{ListError, ListFault, ListRefusal, Match, Table, WordList};
use std::alloc::{AllocError, Global};
use std::test::Fail;

struct LookCase {
    list: &'static [u8],
    text: &'static [u8],
    found: Result<u16, Match>,
}

const LOOK_CASES: [LookCase; 14] = [
    LookCase {
        list: b"\x02\x03abc\x02bd",
        text: b"ab",
        found: Ok(2),
    },
    LookCase {
        list: b"\x02\x03abc\x02bd",
        text: b"xabcd",
        found: Err(Match { at: 3, word: 0 }),
    },
    // one word goes on within another
    LookCase {
        list: b"\x02\x03abc\x02bd",
        text: b"abd",
        found: Err(Match { at: 2, word: 1 }),
    },
    LookCase {
        list: b"\x02\x03abc\x02bd",
        text: b"",
        found: Ok(0),
    },
    LookCase {
        list: b"\x01\x03aab",
        text: b"aaab",
        found: Err(Match { at: 3, word: 0 }),
    },
    // a word inside another
    LookCase {
        list: b"\x02\x04abcd\x02bc",
        text: b"abcd",
        found: Err(Match { at: 2, word: 1 }),
    },
    LookCase {
        list: b"\x02\x04abcd\x01c",
        text: b"abx",
        found: Ok(0),
    },
    // words that share beginnings
    LookCase {
        list: b"\x03\x03abc\x03abd\x02xa",
        text: b"ababd",
        found: Err(Match { at: 4, word: 1 }),
    },
    LookCase {
        list: b"\x02\x04abcd\x02ab",
        text: b"xxab",
        found: Err(Match { at: 3, word: 1 }),
    },
    // the longest of those that end at one place, wherever it stands in the list
    LookCase {
        list: b"\x03\x01c\x03abc\x02bc",
        text: b"abc",
        found: Err(Match { at: 2, word: 1 }),
    },
    // words of one byte
    LookCase {
        list: b"\x02\x01\x00\x01\xff",
        text: b"ab\xff\x00",
        found: Err(Match { at: 2, word: 1 }),
    },
    LookCase {
        list: b"\x01\x01a",
        text: b"bcd",
        found: Ok(0),
    },
    // no words
    LookCase {
        list: b"\x00",
        text: b"abc",
        found: Ok(0),
    },
    // what comes after the list does not count
    LookCase {
        list: b"\x01\x01a\x01b",
        text: b"b",
        found: Ok(0),
    },
];

struct RefusedCase {
    list: &'static [u8],
    refusal: ListRefusal,
    at: usize,
}

const REFUSED_CASES: [RefusedCase; 7] = [
    RefusedCase {
        list: b"",
        refusal: ListRefusal::Cut,
        at: 0,
    },
    RefusedCase {
        list: b"\x02\x01a",
        refusal: ListRefusal::Cut,
        at: 3,
    },
    RefusedCase {
        list: b"\x02\x01a\x02b",
        refusal: ListRefusal::Cut,
        at: 3,
    },
    RefusedCase {
        list: b"\x02\x01a\x00",
        refusal: ListRefusal::TooMuch,
        at: 3,
    },
    RefusedCase {
        list: b"\x01\x41a",
        refusal: ListRefusal::TooMuch,
        at: 1,
    },
    RefusedCase {
        list: b"\x03\x02ab\x01a\x02ab",
        refusal: ListRefusal::Twice,
        at: 6,
    },
    // of the first word with a fault, though the list is cut behind it
    RefusedCase {
        list: b"\x04\x01a\x01a\x00",
        refusal: ListRefusal::Twice,
        at: 3,
    },
];

fn fault_of(heap: Global, bytes: &[u8]) -> Option<ListError> {
    match WordList::read(heap, bytes) {
        Ok(_) => None,
        Err(error) => Some(error),
    }
}

fn fault(refusal: ListRefusal, at: usize) -> Option<ListError> {
    Some(ListError::Fault(ListFault { refusal, at }))
}

// A list of words of one length, each its number and then zeros.
fn numbered(heap: Global, count: u8, len: u8) -> Result<Vec<u8>, AllocError> {
    let mut bytes = Vec::new(heap);
    bytes.push(count)?;
    for k in 0..count {
        bytes.push(len)?;
        bytes.push(k)?;
        for _ in 1..len {
            bytes.push(0)?;
        }
    }
    Ok(bytes)
}

#[test]
fn looks(rt: HostRuntime) -> Result<(), Fail> {
    let heap = rt.alloc();
    for case in &LOOK_CASES {
        let (list, _) = WordList::read(heap, case.list)?;
        let table = Table::build(heap, &list)?;
        assert_eq!(rt; table.look(0, case.text), case.found);
    }
    Ok(())
}

#[test]
fn two_words(rt: HostRuntime) -> Result<(), Fail> {
    let heap = rt.alloc();
    let (list, taken) = WordList::read(heap, b"\x02\x03abc\x02bd and more")?;
    assert_eq!(rt; taken, 8);
    assert_eq!(rt; list.len(), 2);
    assert_eq!(rt; list.words().len(), 2);
    assert!(rt; list.word(1) == Some(b"bd"));
    assert!(rt; list.word(2).is_none());
    let table = Table::build(heap, &list)?;
    assert_eq!(rt; table.states(), 6);
    let after_ab = table.row(2).ok_or("no state 2")?;
    assert_eq!(rt; after_ab.get(100).copied(), Some(5));
    assert_eq!(rt; after_ab.get(0).copied(), Some(0));
    assert!(rt; table.row(6).is_none());
    assert_eq!(rt; table.word(2), None);
    assert_eq!(rt; table.word(3), Some(0));
    assert_eq!(rt; table.word(5), Some(1));
    assert_eq!(rt; table.word(6), None);
    // a look goes on where another ended; a number that is no state counts as the start
    assert_eq!(rt; table.look(2, b"d"), Err(Match { at: 0, word: 1 }));
    assert_eq!(rt; table.look(6, b"d"), Ok(0));
    Ok(())
}

#[test]
fn refusals(rt: HostRuntime) {
    for case in &REFUSED_CASES {
        assert_eq!(rt;
            fault_of(rt.alloc(), case.list),
            fault(case.refusal, case.at)
        );
    }
}

#[test]
fn cut_anywhere(rt: HostRuntime) {
    let bytes = b"\x02\x03abc\x02bd";
    let faults = [0, 1, 1, 1, 1, 5, 5, 5];
    for (n, at) in faults.iter().enumerate() {
        assert_eq!(rt;
            fault_of(rt.alloc(), &bytes[0..n]),
            fault(ListRefusal::Cut, *at)
        );
    }
    assert_eq!(rt; fault_of(rt.alloc(), bytes), None);
}

#[test]
fn full_size(rt: HostRuntime) -> Result<(), Fail> {
    let heap = rt.alloc();
    for (count, len) in [(64, 64), (128, 32)] {
        let bytes = numbered(heap, count, len)?;
        let (list, taken) = WordList::read(heap, &bytes)?;
        assert_eq!(rt; taken, bytes.len());
        assert_eq!(rt; list.len(), usize::from(count));
        assert_eq!(rt; Table::build(heap, &list)?.states(), 4097);
    }
    let too_many = numbered(heap, 129, 1)?;
    assert_eq!(rt; fault_of(heap, &too_many), fault(ListRefusal::TooMuch, 257));
    let too_long = numbered(heap, 65, 64)?;
    assert_eq!(rt;
        fault_of(heap, &too_long),
        fault(ListRefusal::TooMuch, 4161)
    );
    Ok(())
}

// The words are the bytes below 128: each of the 256 bytes is looked at.
#[test]
fn every_byte(rt: HostRuntime) -> Result<(), Fail> {
    let heap = rt.alloc();
    let (list, _) = WordList::read(heap, &numbered(heap, 128, 1)?)?;
    let table = Table::build(heap, &list)?;
    for b in 0..=255u8 {
        let found = if b < 128 {
            Err(Match { at: 0, word: b })
        } else {
            Ok(0)
        };
        assert_eq!(rt; table.look(0, &[b]), found);
    }
    Ok(())
}
