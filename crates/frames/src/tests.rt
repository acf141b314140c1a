// Items one by one, and an input that comes in pieces.
use crate::{ConfigError, Fault, Input, Item, Refusal};
use filter::Side;
use std::io;
use std::io::Read;
use std::test::Fail;

struct ItemCase {
    bytes: &'static [u8],
    read: Result<(Item, usize), Refusal>,
}

const ITEM_CASES: [ItemCase; 10] = [
    ItemCase {
        bytes: b"",
        read: Err(Refusal::Cut),
    },
    ItemCase {
        bytes: b"\x01\x01\x00\x02xyz",
        read: Ok((
            Item::Packet {
                side: Side::Looms,
                start: 4,
                end: 6,
            },
            6,
        )),
    },
    ItemCase {
        bytes: b"\x01\x00\x00\x00",
        read: Ok((
            Item::Packet {
                side: Side::Outside,
                start: 4,
                end: 4,
            },
            4,
        )),
    },
    ItemCase {
        bytes: b"\x01\x00\x01\x00x",
        read: Err(Refusal::Cut),
    },
    ItemCase {
        bytes: b"\x01",
        read: Err(Refusal::Cut),
    },
    // no more bytes mend this one
    ItemCase {
        bytes: b"\x01\x02",
        read: Err(Refusal::Bad),
    },
    ItemCase {
        bytes: b"\x02\x01\x02\x03\x04",
        read: Ok((Item::Ticks(0x0102_0304), 5)),
    },
    ItemCase {
        bytes: b"\x02\x00\x00\x00",
        read: Err(Refusal::Cut),
    },
    // a second configuration
    ItemCase {
        bytes: b"\x03\x0a\x00\x00\x00\x00\x00",
        read: Err(Refusal::Bad),
    },
    ItemCase {
        bytes: b"\x00",
        read: Err(Refusal::Bad),
    },
];

#[test]
fn items(rt: HostRuntime) {
    for case in &ITEM_CASES {
        assert_eq!(rt; Item::read(case.bytes), case.read);
    }
}

// Gives a byte at a time.
#[derive(Drop)]
struct Drops {
    bytes: &'static [u8],
    at: usize,
}

impl Read for Drops {
    fn read(&mut self, buf: &mut [u8]) -> io::Result<usize> {
        if buf.is_empty() || self.at >= self.bytes.len() {
            return Ok(0);
        }
        buf[0] = self.bytes[self.at];
        self.at += 1;
        Ok(1)
    }
}

#[test]
fn byte_by_byte(rt: HostRuntime) -> Result<(), Fail> {
    let mut source = Drops {
        bytes: b"\x03\x0c\x00\x00\x00\x07\x01\x02ab\x02\x00\x00\x00\x09\x01\x00\x00\x02hi\x01",
        at: 0,
    };
    let mut input = Input::new(rt.alloc())?;
    for _ in 0..9 {
        input.fill(&mut source)?;
    }
    assert_eq!(rt;
        input.config(rt.alloc()).err(),
        Some(ConfigError::Fault(Fault {
            refusal: Refusal::Cut,
            at: 7,
        }))
    );
    input.fill(&mut source)?;
    let config = input.config(rt.alloc())?;
    assert_eq!(rt; config.power, 12);
    assert_eq!(rt; config.quiet, 7);
    assert_eq!(rt; config.words.len(), 1);
    for _ in 0..12 {
        input.fill(&mut source)?;
    }
    assert_eq!(rt; input.next_item(), Ok(Item::Ticks(9)));
    assert_eq!(rt;
        input.next_item(),
        Ok(Item::Packet {
            side: Side::Outside,
            start: 9,
            end: 11,
        })
    );
    assert_eq!(rt; input.offset(), 21);
    let cut = Fault {
        refusal: Refusal::Cut,
        at: 21,
    };
    assert_eq!(rt; input.next_item(), Err(cut));
    assert!(rt; !input.is_empty());
    Ok(())
}
