// Prints the table of a word list.
#![tactic(auto)]

use automaton::{ListFault, ListRefusal, Table, WordList};
use std::alloc::{AllocError, Global};
use std::io::Read;
use std::process::ExitCode;
use std::{env, io};

const USAGE: &str = "usage: words < LIST

Reads a word list from standard input: how many words there are (1 byte), then
each word with its length before it (1 byte). Up to 128 words of 1 to 64 bytes,
4,096 bytes together, none twice.

Prints the table that looks for the words: how many states it has, and a line for
each: its number, its text in hex (- for the empty one), the longest word that the
text ends in, if any, and after the colon each byte that leads elsewhere than to
state 0, with the state that it leads to.

A list with a fault is not printed: `words: fault N at byte K` goes to standard
error, and the status is 1. N is 1 where the list is cut or bytes follow it, 11
where there is too much of something or a word is empty, 12 where a word stands
twice. K counts from 0.
";

// Why nothing, or no more, is printed.
type Stop = fault::Stop<ListRefusal>;

// The list on standard input, with nothing behind it.
fn read_list(rt: &HostRuntime) -> Result<WordList, Stop> {
    let heap = rt.alloc();
    let mut bytes = Vec::new(heap);
    rt.stdin().read_to_end(&mut bytes)?;
    let (list, taken) = WordList::read(heap, &bytes)?;
    // bytes behind the list are reported under the number of a cut one
    if taken < bytes.len() {
        return Err(Stop::Fault(ListFault {
            refusal: ListRefusal::Cut,
            at: taken,
        }));
    }
    Ok(list)
}

// Adds the beginnings of a word that are new states. States are numbered in the order in which they first occur.
fn add_beginnings<'a>(
    table: &Table,
    word: &'a [u8],
    seen: &mut Vec<&'a [u8]>,
) -> Result<(), AllocError> {
    let mut state = 0;
    for (i, b) in word.iter().enumerate() {
        let Some(row) = table.row(state) else {
            return Ok(());
        };
        let Some(next) = row.get(usize::from(*b)) else {
            return Ok(());
        };
        state = *next;
        if usize::from(state) == seen.len() {
            seen.push(&word[..=i])?;
        }
    }
    Ok(())
}

// The text of each state.
fn beginnings<'a>(
    heap: Global,
    list: &'a WordList,
    table: &Table,
) -> Result<Vec<&'a [u8]>, AllocError> {
    let mut seen: Vec<&[u8]> = Vec::new(heap);
    seen.push(b"")?;
    for word in list.words() {
        add_beginnings(table, word, &mut seen)?;
    }
    Ok(seen)
}

fn push_hex(line: &mut String, bytes: &[u8]) -> io::Result<()> {
    for b in bytes {
        write!(line, "{b:02x}")?;
    }
    Ok(())
}

fn push_text(line: &mut String, text: &[u8]) -> io::Result<()> {
    if text.is_empty() {
        return Ok(line.push('-')?);
    }
    push_hex(line, text)
}

// The bytes that lead elsewhere than to state 0.
fn push_row(line: &mut String, row: &[u16]) -> io::Result<()> {
    for (b, next) in row.iter().enumerate() {
        if *next != 0 {
            write!(line, " {b:02x}>{next}")?;
        }
    }
    Ok(())
}

// The line of a state.
fn push_state(
    line: &mut String,
    list: &WordList,
    table: &Table,
    state: u16,
    text: &[u8],
) -> io::Result<()> {
    write!(line, "{state} ")?;
    push_text(line, text)?;
    if let Some(number) = table.word(state)
        && let Some(word) = list.word(usize::from(number))
    {
        line.push_str(" word ")?;
        push_hex(line, word)?;
    }
    line.push_str(" :")?;
    if let Some(row) = table.row(state) {
        push_row(line, row)?;
    }
    Ok(())
}

fn print_table(rt: &HostRuntime, list: &WordList) -> Result<(), Stop> {
    let heap = rt.alloc();
    let table = Table::build(heap, list)?;
    let texts = beginnings(heap, list, &table)?;
    let count = table.states();
    println!(rt; "states {count}")?;
    let mut line = String::new(heap);
    for (state, text) in (0u16..).zip(texts.iter()) {
        line.clear();
        push_state(&mut line, list, &table, state, *text)?;
        println!(rt; "{line}")?;
    }
    Ok(())
}

// `run` and `main` stand in each program: a library's function needs a contract that pins what it does, and none can pin what is printed.
fn run(rt: &HostRuntime) -> Result<(), Stop> {
    let mut args = env::args(rt)?;
    args.next();
    match args.next() {
        None => print_table(rt, &read_list(rt)?),
        Some(arg) if arg.as_str() == "--help" => Ok(rt.print(USAGE)?),
        Some(_) => Err(Stop::Usage),
    }
}

fn main(rt: HostRuntime) -> io::Result<ExitCode> {
    match run(&rt) {
        Ok(()) => return Ok(ExitCode::SUCCESS),
        Err(Stop::Usage) => eprint!(rt; "{USAGE}")?,
        Err(Stop::Fault(fault)) => eprintln!(rt; "words: {fault}")?,
        Err(Stop::Failed(e)) => eprintln!(rt; "words: {e}")?,
    }
    Ok(ExitCode::FAILURE)
}
