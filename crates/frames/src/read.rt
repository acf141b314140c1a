// Reading the configuration and the items from the front of some bytes.
ghost use Rattle.frames.specs.Kinds.{KindOf};
ghost use Rattle.frames.specs.Items.{ReadsItem, header, item, packet_item, ticks_item};
ghost use Rattle.frames.specs.Configs.{ReadsConfig};
ghost use Rattle.std.specs.Prelude.{◌≡◌, ◌+◌, ◌^◌, ◌<◌, ◌≤◌, length, IfOk};

use crate::config::Config;
use crate::item::Item;
use crate::refusal::{ConfigError, Fault, Refusal};
use automaton::WordList;
use filter::Side;
use std::alloc::Global;

const HEADER: usize = 6;

// What stands in the input, by its first byte.
#[derive(Clone, Copy, PartialEq, Eq, Debug)]
enum Kind {
    Packet,
    Ticks,
    Config,
}

impl TryFrom<u8> for Kind {
    type Error = Refusal;

    ghost try_from_gives = { KindOf };

    fn try_from(number: u8) -> Result<Kind, Refusal> {
        match number {
            1 => Ok(Kind::Packet),
            2 => Ok(Kind::Ticks),
            3 => Ok(Kind::Config),
            _ => Err(Refusal::Bad),
        }
    }
}

// A packet: 1, side, length (2 bytes), bytes.
fn read_packet(bytes: &[u8]) -> Result<(Item, usize), Refusal>
    ensures { ReadsItem packet_item bytes.now result }
{
    let [_, from, ..] = bytes else {
        return Err(Refusal::Cut);
    };
    let side = Side::try_from(*from)?;
    let [_, _, high, low, ..] = bytes else {
        return Err(Refusal::Cut);
    };
    let end = 4 + usize::from(u16::from_be_bytes([*high, *low]));
    if end > bytes.len() {
        return Err(Refusal::Cut);
    }
    Ok((
        Item::Packet {
            side,
            start: 4,
            end,
        },
        end,
    ))
}

// Ticks: 2, how many (4 bytes).
fn read_ticks(bytes: &[u8]) -> Result<(Item, usize), Refusal>
    ensures { ReadsItem ticks_item bytes.now result }
{
    let [_, a, b, c, d, ..] = bytes else {
        return Err(Refusal::Cut);
    };
    Ok((Item::Ticks(u32::from_be_bytes([*a, *b, *c, *d])), 5))
}

impl Item {
    // Reads an item from the front of some bytes, and says how many of them it takes.
    pub fn read(bytes: &[u8]) -> Result<(Item, usize), Refusal>
        ensures { ReadsItem item bytes.now result }
    {
        let [kind, ..] = bytes else {
            return Err(Refusal::Cut);
        };
        match Kind::try_from(*kind)? {
            Kind::Packet => read_packet(bytes),
            Kind::Ticks => read_ticks(bytes),
            Kind::Config => Err(Refusal::Bad),
        }
    }
}

// The front of a configuration: 3, power, quiet (4 bytes).
fn read_header(bytes: &[u8]) -> Result<(u8, u32), Refusal>
    ensures value { result ≡ header bytes.now }
    ensures bound { IfOk result (λ h. (10 ≤ h.0) × (h.0 ≤ 16) × (6 ≤ length bytes.now)) }
{
    let [kind, ..] = bytes else {
        return Err(Refusal::Cut);
    };
    if Kind::try_from(*kind)? != Kind::Config {
        return Err(Refusal::Bad);
    }
    let [_, power, ..] = bytes else {
        return Err(Refusal::Cut);
    };
    if *power < 10 || *power > 16 {
        return Err(Refusal::Bad);
    }
    let [_, _, a, b, c, d, ..] = bytes else {
        return Err(Refusal::Cut);
    };
    Ok((*power, u32::from_be_bytes([*a, *b, *c, *d])))
}

impl Config {
    // Reads a configuration from the front of some bytes, and says how many of them it takes.
    pub fn read(heap: Global, bytes: &[u8]) -> Result<(Config, usize), ConfigError>
        ensures { ReadsConfig bytes.now result }
    {
        let (power, quiet) = read_header(bytes).map_err(|refusal| Fault { refusal, at: 0 })?;
        // by a match: with `map_err` what its closure gives stayed closed to the proof
        let (words, taken) = match WordList::read(heap, &bytes[HEADER..]) {
            Ok(list) => list,
            Err(error) => return Err(error.behind(HEADER)),
        };
        let config = Config {
            power,
            quiet,
            words,
        };
        Ok((config, HEADER + taken))
    }
}
