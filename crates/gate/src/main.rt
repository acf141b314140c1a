// The gate between the outside and the looms: reads packets and ticks, passes on what may pass.
#![tactic(auto)]

ghost use Rattle.std.specs.Prelude.{◌≤◌, length};

use filter::Side;
use frames::{Config, ConfigError, Fault, Input, Item, Refusal};
use std::io::Read;
use std::process::ExitCode;
use std::{env, io};

const USAGE: &str = "usage: gate < INPUT

Reads from standard input, item by item, numbers with the high byte first: first of
all 3, the window's width as its power of two (1 byte, 10 to 16), ticks of quiet
(4), and the word list (how many words (1), then each with its length before it
(1)); then any of 1, side (1: 0 outside, 1 looms), length (2), packet; and 2,
ticks (4). What has come is handled before the gate waits for more.

No packet is passed on yet: the input is read, and nothing is printed.

Reading ends with the input, or at its first fault: `gate: fault N at byte K` goes
to standard error, and the status is 1. N is 1 for an unknown kind, a bad length
or an item that is cut, 11 for a word list with too much of something or an empty
word, 12 for a word that stands twice. K counts from 0.
";

// Why the gate ends before its input does.
type Stop = fault::Stop<Refusal>;

// Reads the configuration that stands first, however many pieces it comes in: one that is cut is short, so there is room for more of it.
fn read_config<R: Read>(
    rt: &HostRuntime,
    input: &mut Input,
    source: &mut R,
) -> Result<Config, Stop> {
    loop {
        let fault = match input.config(rt.alloc()) {
            Ok(config) => return Ok(config),
            Err(ConfigError::Fault(fault)) => fault,
            Err(error) => return Err(Stop::from(error)),
        };
        if fault.refusal != Refusal::Cut || input.fill(source)? == 0 {
            return Err(Stop::Fault(fault));
        }
    }
}

// What is done with a packet that stands in a buffer: until there is a filter, every one is dropped.
fn take_packet(_side: Side, buffer: &mut [u8], start: usize, end: usize)
    requires { (start ≤ end) × (end ≤ length buffer.old) }
{
    let _packet = &mut buffer[start..end];
}

// Handles the items that have come whole, and says what ends the reading for now.
fn take_items(input: &mut Input) -> Fault {
    loop {
        let item = match input.next_item() {
            Ok(item) => item,
            Err(fault) => return fault,
        };
        match item {
            Item::Packet { side, start, end } => take_packet(side, &mut input.buffer, start, end),
            Item::Ticks(_) => {}
        }
    }
}

// Handles what has come before it waits for more, up to the end or the first fault.
fn pass<R: Read>(rt: &HostRuntime, source: &mut R) -> Result<(), Stop> {
    let mut input = Input::new(rt.alloc())?;
    let _config = read_config(rt, &mut input, source)?;
    // the input may never end; no input is so long that its turns cannot be counted
    for _ in 0..u64::MAX {
        let fault = take_items(&mut input);
        if fault.refusal != Refusal::Cut {
            return Err(Stop::Fault(fault));
        }
        if input.fill(source)? == 0 {
            if input.is_empty() {
                return Ok(());
            }
            return Err(Stop::Fault(fault));
        }
    }
    Err(Stop::from(io::Error::from(io::ErrorKind::Other)))
}

// `run` and `main` stand in each program: a library's function needs a contract that pins what it does, and none can pin what is printed.
fn run(rt: &HostRuntime) -> Result<(), Stop> {
    let mut args = env::args(rt)?;
    args.next();
    match args.next() {
        None => pass(rt, &mut rt.stdin()),
        Some(arg) if arg.as_str() == "--help" => Ok(rt.print(USAGE)?),
        Some(_) => Err(Stop::Usage),
    }
}

fn main(rt: HostRuntime) -> io::Result<ExitCode> {
    match run(&rt) {
        Ok(()) => return Ok(ExitCode::SUCCESS),
        Err(Stop::Usage) => eprint!(rt; "{USAGE}")?,
        Err(Stop::Fault(fault)) => eprintln!(rt; "gate: {fault}")?,
        Err(Stop::Failed(e)) => eprintln!(rt; "gate: {e}")?,
    }
    Ok(ExitCode::FAILURE)
}
