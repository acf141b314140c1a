// A sender that sends one place twice, with different bytes, and what becomes of it: by the old way, and by ours.
#![tactic(auto)]

use anyhow::anyhow;
use automaton::{Table, WordList};
use sequence::Place;
use std::fmt::Display;
use std::io;
use stream::{Refused, Stream};

// one word, `ab`, as a word list
const WORDS: [u8; 4] = [1, 2, b'a', b'b'];

// the power of two of the window's width
const POWER: u32 = 10;

// what a sender with a broken buffer sends: a place, and the byte for it
const SENT: [(u64, u8); 3] = [(0, b'x'), (0, b'a'), (1, b'b')];

// the same word, its second byte first
const BACKWARD: [(u64, u8); 2] = [(1, b'b'), (0, b'a')];

// Two machines that differ in what they keep of a place that comes twice.
#[derive(Drop)]
struct Machines {
    keeps_first: [Option<u8>; 2],
    takes_last: [Option<u8>; 2],
}

impl Machines {
    fn new() -> Machines {
        Machines {
            keeps_first: [None; 2],
            takes_last: [None; 2],
        }
    }

    fn receive(&mut self, place: u64, byte: u8) {
        if place < 2 {
            let at = place as usize;
            self.keeps_first[at].get_or_insert(byte);
            self.takes_last[at] = Some(byte);
        }
    }

    fn show(&self, rt: &HostRuntime) -> io::Result<()> {
        let [a, b] = self.keeps_first.map(shown);
        println!(rt; "  a machine that keeps the first byte reads: {a}{b}")?;
        let [a, b] = self.takes_last.map(shown);
        println!(rt; "  a machine that takes the last byte reads:  {a}{b}")
    }
}

// What stands at a place, and `-` where it stays empty.
fn shown(byte: Option<u8>) -> char {
    byte.map_or('-', char::from)
}

// Tells what becomes of a byte that is sent.
fn tell_of(rt: &HostRuntime, place: u64, byte: u8, what: impl Display + Drop) -> io::Result<()> {
    println!(rt; "  sent at {place}: {}   {what}", byte as char)
}

fn old_way(rt: &HostRuntime) -> io::Result<()> {
    println!(rt;
        "The word is ab. Everything is passed on as it comes, and only the first byte of a place is looked at:"
    )?;
    let mut machines = Machines::new();
    for (place, byte) in SENT {
        tell_of(rt, place, byte, format_args!("passed on: {}", byte as char))?;
        machines.receive(place, byte);
    }
    machines.show(rt)
}

// The gate as far as it is needed here: a table of words, and one stream.
#[derive(Drop)]
struct Gate {
    table: Table,
    stream: Stream,
}

impl Gate {
    fn new(rt: &HostRuntime) -> anyhow::Result<Gate> {
        let Ok((list, _)) = WordList::read(rt.alloc(), &WORDS) else {
            return Err(anyhow!("the word list cannot be read"));
        };
        let table = Table::build(rt.alloc(), &list)?;
        let Ok(stream) = Stream::new(rt.alloc(), POWER) else {
            return Err(anyhow!("no memory for a window"));
        };
        Ok(Gate { table, stream })
    }

    // A byte is sent to a place: the byte that is passed on, if any.
    fn send(&mut self, rt: &HostRuntime, place: u64, byte: u8) -> io::Result<Option<u8>> {
        let mut payload = [byte];
        let taken = self
            .stream
            .take(&self.table, Place::At(place), &mut payload, false);
        match taken {
            Ok(Some(_)) => {
                let [out] = payload;
                tell_of(rt, place, byte, format_args!("passed on: {}", out as char))?;
                return Ok(Some(out));
            }
            Ok(None) => tell_of(rt, place, byte, format_args!("nothing is left of it"))?,
            Err(Refused::Word(word)) => tell_of(
                rt,
                place,
                byte,
                format_args!(
                    "refused: a word would end at place {}, and the stream is shut",
                    word.place
                ),
            )?,
            Err(Refused::Shut) => tell_of(
                rt,
                place,
                byte,
                format_args!("refused: the stream is shut"),
            )?,
        }
        Ok(None)
    }
}

// Each time from a stream that begins.
fn our_way(rt: &HostRuntime, gate: &mut Gate, sent: &[(u64, u8)]) -> io::Result<()> {
    gate.stream.clear();
    let mut machines = Machines::new();
    for (place, byte) in sent.iter().copied() {
        if let Some(out) = gate.send(rt, place, byte)? {
            machines.receive(place, out);
        }
    }
    machines.show(rt)
}

fn main(rt: HostRuntime) -> anyhow::Result<()> {
    let mut gate = Gate::new(&rt)?;
    old_way(&rt)?;
    println!(rt; "The gate keeps one byte for each place:")?;
    our_way(&rt, &mut gate, &SENT)?;
    println!(rt;
        "And where the word comes backward, its last byte first (- is a place that stays empty):"
    )?;
    our_way(&rt, &mut gate, &BACKWARD)?;
    Ok(())
}
