// A buffer through which the input is read.
ghost use Rattle.std.specs.Prelude.{◌≤◌, length};

// What has come and is not read yet stands from `start` to `end`; `offset` is the place of `start` in the whole input, modulo 2^64.
// Memory is fixed: the buffer is taken once, whole, so where its content begins and ends stands beside it.
#[derive(Drop)]
pub struct Input {
    pub buffer: Vec<u8>,
    pub(crate) start: usize,
    pub(crate) end: usize,
    pub(crate) offset: usize,
    ghost forward: { start ≤ end },
    ghost within: { end ≤ length buffer.items },
}
