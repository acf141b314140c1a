// A packet of a loom's that acknowledges bytes of the sender's.
ghost use Rattle.std.specs.Prelude.{◌≡◌, true, false, Ok};
ghost use Rattle.automaton.specs.Text.{nonempty};
ghost use Rattle.packet.specs.Packet.{packet as view};
ghost use Rattle.packet.specs.Reads.{Reads};
ghost use Rattle.filter.specs.Config.{Config, Key};
ghost use Rattle.filter.specs.Gate.{Connection as Model};
ghost use Rattle.filter.specs.Held.{Acknowledges, Held, Left, above};

use crate::connection::Connection;
use packet::edit::Edit;
use packet::rewrite::rewrite;
use packet::segment::Segment;
use sequence::{Place, number_of};
use std::ops::Range;

// Is the place above a limit?
fn is_above(place: Place, limit: u64) -> bool
    ensures { result ≡ above place limit }
{
    match place {
        Place::At(i) => i > limit,
        Place::Below(_) => false,
    }
}

impl Connection {
    // The loom acknowledges: low rises, and a number above what was passed on without a gap is lowered to that. Answers which part of the buffer goes out.
    pub(crate) fn acknowledge(
        &mut self,
        quiet: u32,
        segment: &Segment,
        packet: &mut [u8],
    ) -> Range<usize>
        requires { Reads packet.old (Ok segment.now) }
        ensures left { Left packet.old packet.new (Ok result) }
        ensures acknowledges { (c : Config) (k : Key) (m : Model) → c.quiet ≡ quiet → nonempty c.words ≡ true → m.stream.shut ≡ false → Held c m self.old →
            Acknowledges c k m (view packet.old) packet.new self.new result }
    {
        let len = packet.len();
        let place = self.place(segment.acknowledged);
        let limit = self.stream.ack_limit();
        self.stream.acknowledge(place);
        self.left = quiet;
        if !is_above(place, limit) {
            return 0..len;
        }
        let edit = Edit {
            acknowledged: number_of(self.first, limit),
            ..Edit::none(segment, len)
        };
        rewrite(packet, edit, None)
    }
}
