// How far one direction of a stream has come.
ghost use Rattle.std.specs.Prelude.{◌≡◌, ◌<◌, true, false, None};
ghost use Rattle.std.specs.Option.{option_or};
ghost use Rattle.stream.specs.Marks.{limit_of, low_after};

use crate::look::Reached;
use sequence::Place;

#[derive(Clone, Copy, PartialEq, Eq, Debug)]
pub struct Marks {
    // the highest place that the receiver has acknowledged, never above the end of the text
    pub low: u64,
    // the end of the text: of the bytes known without a gap from place 0 on
    pub end: u64,
    // the place of the known FIN
    pub fin: Option<u64>,
    // of the look, after the text
    pub state: u16,
    // a word came, and nothing more is passed on
    pub shut: bool,
}

impl Marks {
    // Those of a stream that begins; no derived Default, so that the contract says each.
    pub fn start() -> Marks
        ensures { result ≡ record { low = 0; end = 0; fin = None; state = 0; shut = false } }
    {
        Marks {
            low: 0,
            end: 0,
            fin: None,
            state: 0,
            shut: false,
        }
    }

    // The receiver has acknowledged a place: low rises to it, but not above the end of the text.
    pub fn acknowledged(self, place: Place) -> Marks
        ensures { result ≡ record { low = low_after self.low self.end place; end = self.end; fin = self.fin; state = self.state; shut = self.shut } }
    {
        match place {
            Place::Below(_) => self,
            Place::At(i) => Marks {
                low: self.low.max(i.min(self.end)),
                ..self
            },
        }
    }

    // A word came.
    pub fn shut_down(self) -> Marks
        ensures { result ≡ record { low = self.low; end = self.end; fin = self.fin; state = self.state; shut = true } }
    {
        Marks { shut: true, ..self }
    }

    // A segment was passed on: the text ends there then, and a FIN was kept of it or not.
    pub fn grown(self, reached: Reached, fin: Option<u64>) -> Marks
        ensures { result ≡ record { low = self.low; end = reached.end; fin = option_or fin self.fin; state = reached.state; shut = self.shut } }
    {
        Marks {
            end: reached.end,
            fin: fin.or(self.fin),
            state: reached.state,
            ..self
        }
    }

    // How far the text reaches.
    pub fn reached(self) -> Reached
        ensures { result ≡ record { end = self.end; state = self.state } }
    {
        Reached {
            end: self.end,
            state: self.state,
        }
    }

    // Up to where the receiver may acknowledge: the end of the text, and one more where the known FIN stands there, if that fits.
    pub fn ack_limit(self) -> u64
        ensures limit { self.end < 18446744073709551615 → result ≡ limit_of self.end self.fin }
        ensures most { self.end ≡ 18446744073709551615 → result ≡ 18446744073709551615 }
    {
        match self.fin {
            Some(f) if f == self.end => self.end.saturating_add(1),
            _ => self.end,
        }
    }
}
