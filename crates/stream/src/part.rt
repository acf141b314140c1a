// What of a segment lies inside.
ghost use Rattle.std.specs.Prelude.{◌≡◌};
ghost use Rattle.window.specs.Window.{knows, width};
ghost use Rattle.stream.specs.Part.{PartOf, fin_may_stand, kept_if};
ghost use Rattle.stream.specs.Stream.{places, up_to};

use crate::stream::Stream;
use sequence::{PLACES, Place};

// The part of a segment's bytes from `start` up to `end`, whose first byte stands at `place`.
// Two numbers: `take` uses them more than once, a Range is not Copy, and its clone may fail.
#[derive(Clone, Copy, PartialEq, Eq, Debug)]
pub struct Part {
    pub start: usize,
    pub end: usize,
    pub place: u64,
}

impl Stream {
    // Where the places end at which bytes may stand.
    fn limit(&self) -> u64
        ensures { result ≡ up_to self.now.marks.fin places }
    {
        self.marks.fin.map_or(PLACES, |f| f.min(PLACES))
    }

    // The part of `len` bytes from a place on that lies in the window and before a known FIN.
    pub(crate) fn part(&self, at: Place, len: usize) -> Part
        ensures { PartOf self.now.window.low (width self.now.window) self.now.marks.fin at len result }
    {
        // bytes below place 0 are left off
        let (first, skip) = match at {
            Place::At(i) => (i, 0),
            Place::Below(n) => (0, (n as usize).min(len)),
        };
        let inside = self.window.cut(first, len - skip, self.limit());
        Part {
            start: skip + inside.start,
            end: skip + inside.end,
            place: first.max(self.window.low()),
        }
    }

    // Whether a FIN may stand at a place: in the window, no byte known at or after it, no FIN known elsewhere.
    fn fin_fits(&self, place: u64) -> bool
        ensures { result ≡ fin_may_stand self.now.window.low (width self.now.window) self.now.marks.fin (knows self.now.window) place }
    {
        let low = self.window.low();
        let elsewhere = self.marks.fin.is_some_and(|known| known != place);
        place >= low
            && place - low < self.window.width() as u64
            && place < PLACES
            && !elsewhere
            && self.window.none_known(place)
    }

    // A segment's FIN, if it is kept.
    pub(crate) fn kept_fin(&self, fin: Option<u64>) -> Option<u64>
        ensures { result ≡ kept_if (fin_may_stand self.now.window.low (width self.now.window) self.now.marks.fin (knows self.now.window)) fin }
    {
        fin.filter(|place| self.fin_fits(*place))
    }
}
