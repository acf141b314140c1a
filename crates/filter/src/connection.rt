// What the gate holds of a stream.
ghost use Rattle.std.specs.Prelude.{◌≡◌, true};
ghost use Rattle.automaton.specs.Text.{nonempty};
ghost use Rattle.sequence.specs.Places.{place_of};
ghost use Rattle.filter.specs.Config.{Config};
ghost use Rattle.filter.specs.Gate.{Connection as Model};
ghost use Rattle.filter.specs.Held.{Held};

use sequence::{Place, place_of};
use stream::Stream;

#[derive(Drop)]
pub struct Connection {
    // the sequence number of place 0
    pub(crate) first: u32,
    // the number of the loom's packet with which the stream began
    pub(crate) opening: u32,
    // the sender's last acknowledged number that was passed on
    pub(crate) last_ack: u32,
    // ticks until the stream is ended
    pub(crate) left: u32,
    // the sender's bytes
    pub(crate) stream: Stream,
}

// As with a stream, what came before is no function of the fields: the clauses speak of every model that they stand for.
impl Connection {
    // The place near low for which a number stands.
    pub(crate) fn place(&self, number: u32) -> Place
        ensures { (c : Config) (m : Model) → nonempty c.words ≡ true → Held c m self.now → result ≡ place_of m.first m.stream.low number }
    {
        place_of(self.first, self.stream.marks().low, number)
    }
}
