// Looking at the new bytes of a text, before anything is written.
ghost use Rattle.std.specs.Prelude.{◌≡◌, ℕ, ◌+◌, ◌^◌, ◌<◌, ◌≤◌, List, ◌++◌, length, None, IfOk};
ghost use Rattle.automaton.specs.States.{run};
ghost use Rattle.automaton.specs.Tables.{TableOf};
ghost use Rattle.automaton.specs.Text.{Text};
ghost use Rattle.window.specs.Known.{Within, learn, onwards, overlay, piece};
ghost use Rattle.window.specs.Window.{knows, width};
ghost use Rattle.stream.specs.Look.{LookOf};

use crate::answer::WordAt;
use automaton::Table;
use window::Window;

// How far a text without words reaches: where it ends, and the state of the look there.
#[derive(Clone, Copy, PartialEq, Eq, Debug)]
pub struct Reached {
    pub end: u64,
    pub state: u16,
}

impl Reached {
    // Looks at the bytes that come next.
    fn on(self, table: &Table, bytes: &[u8]) -> Result<Reached, WordAt>
        requires { self.end + length bytes.now < 2 ^ 64 }
        ensures end { IfOk result (λ r. r.end ≡ self.end + length bytes.now) }
        ensures looks { (ws : List Text) (t : Text) → TableOf ws table.now → self.state ≡ run ws 0 t → self.end ≡ length t → LookOf ws t bytes.now result }
    {
        let state = table.look(self.state, bytes).map_err(|found| WordAt {
            place: self.end + found.at as u64,
            word: found.word,
        })?;
        Ok(Reached {
            end: self.end + bytes.len() as u64,
            state,
        })
    }
}

// Looks at the bytes of a part that begins where a text ends, the known byte in place of what came.
fn look_part(window: &Window, table: &Table, from: Reached, part: &[u8]) -> Result<Reached, WordAt>
    requires within { Within window.now.low (width window.now) from.end (length part.now) }
    requires fits { from.end + length part.now < 2 ^ 64 }
    ensures end { IfOk result (λ r. r.end ≡ from.end + length part.now) }
    ensures looks { (ws : List Text) (t : Text) → TableOf ws table.now → from.state ≡ run ws 0 t → from.end ≡ length t →
        LookOf ws t (overlay (knows window.now) from.end part.now) result }
{
    let mut reached = from;
    let mut rest = part;
    while !rest.is_empty() {
        let front = window.overlaid_front(reached.end, rest);
        reached = reached.on(table, front)?;
        rest = &rest[front.len()..];
    }
    Ok(reached)
}

// Looks at the bytes by which a part that begins at `place` lets a text grow: those of the part from its end on, and those known behind it.
pub(crate) fn look(
    window: &Window,
    table: &Table,
    from: Reached,
    place: u64,
    part: &[u8],
) -> Result<Reached, WordAt>
    requires within { Within window.now.low (width window.now) place (length part.now) }
    requires fits { 0 < length part.now → place + length part.now ≤ 9223372036854775808 }
    ensures { (ws : List Text) (t : Text) → TableOf ws table.now → from.state ≡ run ws 0 t → from.end ≡ length t →
        window.now.low ≤ from.end → knows window.now from.end ≡ None →
        LookOf ws t (onwards (width window.now) from.end (learn (piece place part.now) (knows window.now))) result }
{
    let reach = place + part.len() as u64;
    if place > from.end || reach <= from.end {
        return Ok(from);
    }
    let new = &part[(from.end - place) as usize..];
    let reached = look_part(window, table, from, new)?;
    let (first, second) = window.known_from(reach);
    reached.on(table, first)?.on(table, second)
}
