// Reading the input through a buffer, item by item.
ghost use Rattle.std.specs.Prelude.{◌≡◌, ℕ, ◌+◌, ◌<◌, ◌≤◌, [], length, take, IfOk, ◌==◌};
ghost use Rattle.frames.specs.Buffer.{Filled, Placing, SameInput, TookConfig, TookItem, pending, placed};

use crate::config::Config;
use crate::input::Input;
use crate::item::Item;
use crate::refusal::{ConfigError, Fault};
use std::alloc::{AllocError, Global};
use std::io;
use std::io::Read;

// More than any item, so that there is always room for more of one that is cut.
const CAPACITY: usize = 262144;

// The item, where the bytes that hold it begin at `from`.
fn place(item: Item, from: usize) -> Item
    requires { Placing item from }
    ensures { result ≡ placed from item }
{
    match item {
        Item::Packet { side, start, end } => Item::Packet {
            side,
            start: from + start,
            end: from + end,
        },
        Item::Ticks(n) => Item::Ticks(n),
    }
}

// Reads what a source has for now into the part of a buffer behind `end`.
fn read_behind<R: Read>(buffer: &mut [u8], end: usize, source: &mut R) -> io::Result<usize>
    requires { end ≤ length buffer.old }
    ensures same { take end buffer.new ≡ take end buffer.old }
    ensures count { IfOk result (λ n. end + n ≤ length buffer.old) }
{
    source.read(&mut buffer[end..])
}

impl Input {
    // A buffer with nothing in it, at the beginning of the input.
    pub fn new(heap: Global) -> Result<Input, AllocError>
        ensures { IfOk result (λ i. (pending i ≡ []) × (i.offset ≡ 0) × (length i.buffer.items ≡ 262144)) }
    {
        let buffer = vec![in heap; 0u8; CAPACITY]?;
        Ok(Input {
            buffer,
            start: 0,
            end: 0,
            offset: 0,
        })
    }

    // Is there nothing that has come and is not read yet?
    pub fn is_empty(&self) -> bool
        ensures { result ≡ (length (pending self.now) == 0) }
    {
        self.start == self.end
    }

    // The place in the whole input of what is read next.
    pub fn offset(&self) -> usize
        ensures { result ≡ self.now.offset }
    {
        self.offset
    }

    // Moves what is not read yet to the front of the buffer.
    fn compact(&mut self)
        ensures same { SameInput self.old self.new }
        ensures front { self.new.start ≡ 0 }
    {
        let start = self.start;
        let end = self.end;
        if start > 0 {
            self.buffer.copy_within(start..end, 0);
            self.start = 0;
            self.end = end - start;
        }
    }

    // Adds what a source has for now, behind what is not read yet, and says how many bytes that is: 0 at the source's end.
    pub fn fill<R: Read>(&mut self, source: &mut R) -> io::Result<usize>
        ensures { Filled self.old self.new result }
    {
        self.compact();
        let end = self.end;
        let count = read_behind(&mut self.buffer, end, source)?;
        self.end = end + count;
        Ok(count)
    }

    // Reads the configuration that stands first. A fault's byte is its place in the whole input.
    pub fn config(&mut self, heap: Global) -> Result<Config, ConfigError>
        ensures { TookConfig self.old self.new result }
    {
        let start = self.start;
        let end = self.end;
        let (config, taken) = Config::read(heap, &self.buffer[start..end]).map_err(
            |error| -> ConfigError { error.behind(self.offset) },
        )?;
        self.start = start + taken;
        self.offset = self.offset.wrapping_add(taken);
        Ok(config)
    }

    // Reads the next item. A packet's bytes stand in the buffer where the item says.
    pub fn next_item(&mut self) -> Result<Item, Fault>
        ensures { TookItem self.old self.new result }
    {
        let start = self.start;
        let end = self.end;
        match Item::read(&self.buffer[start..end]) {
            Ok((item, taken)) => {
                self.start = start + taken;
                self.offset = self.offset.wrapping_add(taken);
                Ok(place(item, start))
            }
            Err(refusal) => Err(Fault {
                refusal,
                at: self.offset,
            }),
        }
    }
}
