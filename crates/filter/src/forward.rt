// A segment of a sender's goes on to the loom, with what is left of it.
ghost use Rattle.std.specs.Prelude.{◌≡◌, ◌*◌, ◌/◌, true, length, is_some, if◌then◌else◌, Ok};
ghost use Rattle.std.specs.Option.{option_or};
ghost use Rattle.automaton.specs.Tables.{TableOf};
ghost use Rattle.automaton.specs.Text.{nonempty};
ghost use Rattle.packet.specs.Packet.{packet as view};
ghost use Rattle.packet.specs.Reads.{Reads};
ghost use Rattle.filter.specs.Config.{Config, Key};
ghost use Rattle.filter.specs.Gate.{Connection as Model};
ghost use Rattle.filter.specs.Forwards.{Inside, edit_left, number_at};
ghost use Rattle.filter.specs.Held.{Handles, Held, Left};

use crate::connection::Connection;
use crate::dropped::{Dropped, Refusal};
use automaton::Table;
use packet::edit::{Edit, Patch};
use packet::rewrite::rewrite;
use packet::segment::Segment;
use sequence::number_of;
use std::ops::Range;
use stream::Passed;

// The number of what is left: of its first byte, else of its FIN, else as it came.
fn number_left(first: u32, came: u32, byte: Option<u64>, fin: Option<u64>) -> u32
    ensures { result ≡ number_at first came (option_or byte fin) }
{
    byte.or(fin).map_or(came, |place| number_of(first, place))
}

// The marks of what is left: FIN is taken off unless it was kept.
fn marks_left(raw: u8, fin: Option<u64>) -> u8
    ensures { result ≡ (if is_some fin then raw else raw / 2 * 2) }
{
    if fin.is_some() { raw } else { raw / 2 * 2 }
}

// How a segment of a packet of `len` bytes is to go on: with what is passed of it, or, where nothing is, for its ACK alone.
fn edit_left(
    first: u32,
    segment: &Segment,
    len: usize,
    passed: Option<Passed>,
) -> Result<Edit, Refusal>
    requires { Inside segment.now.payload len passed }
    ensures { result ≡ edit_left first segment.now passed }
{
    let start = segment.payload;
    let came = Edit::none(segment, len);
    let Some(passed) = passed else {
        if !segment.marks.ack {
            return Err(Refusal::Empty);
        }
        return Ok(Edit {
            marks: marks_left(segment.marks.raw, None),
            end: start,
            ..came
        });
    };
    let Passed { part, fin } = passed;
    let byte = (part.start < part.end).then_some(part.place);
    Ok(Edit {
        number: number_left(first, segment.number, byte, fin),
        marks: marks_left(segment.marks.raw, fin),
        start: start + part.start,
        end: start + part.end,
        ..came
    })
}

// A segment and its packet stay apart: the packet is overwritten, and what was read of it holds no longer.
impl Connection {
    // A segment of the sender's comes: what is left of it goes on. Answers which part of the buffer goes out.
    pub(crate) fn forward(
        &mut self,
        table: &Table,
        quiet: u32,
        segment: &Segment,
        packet: &mut [u8],
    ) -> Result<Range<usize>, Dropped>
        requires { Reads packet.old (Ok segment.now) }
        ensures left { Left packet.old packet.new result }
        ensures handles { (c : Config) (k : Key) (m : Model) → c.quiet ≡ quiet → nonempty c.words ≡ true → TableOf c.words table.now → Held c m self.old →
            Handles c k m (view packet.old) packet.new self.new result }
    {
        let start = segment.payload;
        let len = packet.len();
        let at = self.place(segment.number);
        let patch = self
            .stream
            .differs(at, &packet[start..])
            .then(|| Patch::before(packet, start..len));
        let passed = self
            .stream
            .take(table, at, &mut packet[start..], segment.marks.fin)?;
        let edit = edit_left(self.first, segment, len, passed)?;
        self.left = quiet;
        if segment.marks.ack {
            self.last_ack = segment.acknowledged;
        }
        Ok(rewrite(packet, edit, patch))
    }
}
