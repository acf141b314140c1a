// What the gate is started with.
ghost use Rattle.std.specs.Prelude.{◌≤◌};

use automaton::WordList;

// The window is 2^power bytes wide; a stream ends after `quiet` ticks without a packet; the words are forbidden.
#[derive(Drop)]
pub struct Config {
    pub power: u8,
    pub quiet: u32,
    pub words: WordList,
    ghost low: { 10 ≤ power },
    ghost high: { power ≤ 16 },
}
