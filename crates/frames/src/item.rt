// An item of the input behind the configuration.
use filter::Side;

#[derive(Clone, Copy, PartialEq, Eq, Debug)]
pub enum Item {
    // a packet comes from a side; its bytes stand from `start` to `end`: places, since no clause can say what a buffer ends as of which an item within a result lends a part
    Packet {
        side: Side,
        start: usize,
        end: usize,
    },
    // so many ticks pass
    Ticks(u32),
}
