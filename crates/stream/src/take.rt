// Taking what comes to a stream.
ghost use Rattle.std.specs.Prelude.{◌≡◌, ℕ, true, List, [], ◌∷◌, ◌++◌, length};
ghost use Rattle.automaton.specs.Tables.{TableOf};
ghost use Rattle.automaton.specs.Text.{Text, nonempty};
ghost use Rattle.window.specs.Known.{Within, learn, overlay, piece};
ghost use Rattle.window.specs.Window.{knows, width};
ghost use Rattle.stream.specs.Shown.{Left, Stands};
ghost use Rattle.stream.specs.Steps.{Acked, Arrival, run};
ghost use Rattle.stream.specs.Stream.{ack_limit, blank, piece_at};
ghost use Rattle.stream.specs.Took.{Differs, Followed, Made, Took};

use crate::answer::{Passed, Refused};
use crate::look::look;
use crate::marks::Marks;
use crate::part::Part;
use crate::stream::Stream;
use automaton::Table;
use sequence::Place;
use std::alloc::Global;
use window::{Window, WindowError};

// What came before is no function of the fields, since no text is kept: so no Model can show it, and the clauses speak of every history that they stand for.
impl Stream {
    // Each known byte stands in place of what came, and all bytes of the part are known.
    fn write(&mut self, place: u64, part: &mut [u8])
        requires { Within self.old.window.low (width self.old.window) place (length part.old) }
        ensures part { part.new ≡ overlay (knows self.old.window) place part.old }
        ensures known { (i : ℕ) → knows self.new.window i ≡ learn (piece place part.old) (knows self.old.window) i }
        ensures low { self.new.window.low ≡ self.old.window.low }
        ensures width { width self.new.window ≡ width self.old.window }
        ensures marks { self.new.marks ≡ self.old.marks }
    {
        self.window.overlay(place, part);
        self.window.learn(place, part);
    }

    // A segment comes: its bytes, the first of them at a place, and perhaps a FIN after them. Answers what goes on: nothing where neither a byte nor a FIN is left.
    // What would be new in the text is looked at first; only then is anything written.
    pub fn take(
        &mut self,
        table: &Table,
        at: Place,
        payload: &mut [u8],
        fin: bool,
    ) -> Result<Option<Passed>, Refused>
        ensures width { width self.new.window ≡ width self.old.window }
        ensures left { Left payload.old payload.new result }
        ensures took { (ws : List Text) (before : List Arrival) → nonempty ws ≡ true → TableOf ws table.now → Stands ws before self.old →
            Took ws before (record { at = at; bytes = payload.old; fin = fin }) self.new payload.new result }
    {
        if self.marks.shut {
            return Err(Refused::Shut);
        }
        let part = self.part(at, payload.len());
        let Part { start, end, place } = part;
        let kept = if fin {
            self.kept_fin(at.after(payload.len()))
        } else {
            None
        };
        let marks = self.marks;
        let looked = look(
            &self.window,
            table,
            marks.reached(),
            place,
            &payload[start..end],
        );
        let reached = match looked {
            Ok(reached) => reached,
            Err(word) => {
                self.marks = marks.shut_down();
                return Err(Refused::Word(word));
            }
        };
        if start == end && kept.is_none() {
            return Ok(None);
        }
        self.write(place, &mut payload[start..end]);
        self.marks = marks.grown(reached, kept);
        Ok(Some(Passed { part, fin: kept }))
    }

    // Whether taking this segment would overwrite one of its bytes with another; nothing is written.
    pub fn differs(&self, at: Place, payload: &[u8]) -> bool
        ensures { (ws : List Text) (before : List Arrival) → nonempty ws ≡ true → Stands ws before self.now →
            Differs (width self.now.window) (run (width self.now.window) ws blank before) (piece_at at payload.now) result }
    {
        let Part { start, end, place } = self.part(at, payload.len());
        self.window.differs(place, &payload[start..end])
    }

    // The receiver acknowledges a place.
    pub fn acknowledge(&mut self, place: Place)
        ensures width { width self.new.window ≡ width self.old.window }
        ensures took { (ws : List Text) (before : List Arrival) → nonempty ws ≡ true → Stands ws before self.old →
            Followed ws (before ++ (Acked place ∷ [])) self.new }
    {
        if self.marks.shut {
            return;
        }
        let marks = self.marks.acknowledged(place);
        self.window.advance(marks.low);
        self.marks = marks;
    }

    // Up to where the receiver may acknowledge.
    pub fn ack_limit(&self) -> u64
        ensures { (ws : List Text) (before : List Arrival) → nonempty ws ≡ true → Stands ws before self.now →
            result ≡ ack_limit (run (width self.now.window) ws blank before) }
    {
        self.marks.ack_limit()
    }

    pub fn marks(&self) -> Marks
        ensures { result ≡ self.now.marks }
    {
        self.marks
    }

    // The stream begins anew.
    pub fn clear(&mut self)
        ensures width { width self.new.window ≡ width self.old.window }
        ensures fresh { (ws : List Text) → Stands ws [] self.new }
    {
        self.window.clear();
        self.marks = Marks::start();
    }

    // A stream with a window of 2^power places, to which nothing came yet.
    pub fn new(heap: Global, power: u32) -> Result<Stream, WindowError>
        ensures { Made power result }
    {
        let window = Window::new(heap, power)?;
        Ok(Stream {
            window,
            marks: Marks::start(),
        })
    }
}
