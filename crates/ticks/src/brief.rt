// A quick tick for a card that is changed where it is. Where every cell sleeps, it changes the
// memory and the tick total alone, and these are made without a card.
ghost use Rattle.std.specs.Prelude.{true, false, ◌≡◌};
ghost use Rattle.card.specs.Address.{cells_for};
ghost use Rattle.ticks.specs.Brief.{slept_brief, BriefOf};
ghost use Rattle.ticks.specs.Tick.{idle_answer};

use crate::connectors::Lines;
use crate::quiet::{is_quiet, unchanged};
use crate::tick::{Answer, IDLE, lines_in, moved_on, seen_memory};
use crate::view::{Input, wires_of};
use card::card::{Card, Memory};
use card::place::cells_for;
use card::tallies::counted;
use cells::cell::Ticks;

// The lines of a tick; and where it is quiet, all that it changes, and its answer.
#[derive(Clone, Copy, Debug, PartialEq, Eq)]
pub struct Brief {
    pub memory: Memory,
    pub total: Ticks,
    pub answer: Answer,
    pub lines: Lines,
    pub quiet: bool,
}

// What a tick answers that did not run.
pub fn no_answer() -> Answer
    ensures { result ≡ idle_answer }
{
    IDLE
}

fn slept(m: Memory, l: Lines, total: Ticks, quiet: bool) -> Brief
    ensures { result ≡ slept_brief m l total quiet }
{
    Brief {
        memory: moved_on(m, l, m.outputs),
        total: counted(total),
        answer: Answer {
            ran: true,
            driven: l.driven,
            cells: m.outputs,
            ..IDLE
        },
        lines: l,
        quiet,
    }
}

// A quick tick in brief. It may say that it is not quiet where a closer look would say that it is.
// Words and edits are looked at before the cells are copied.
pub fn in_brief(card: Card, input: Input) -> Brief
    ensures { BriefOf (cells_for card.size) card input result }
{
    let n = cells_for(card.size);
    let m = seen_memory(card.memory, n);
    let l = lines_in(card.connectors, m, input);
    let w = wires_of(m, l.levels);
    if (card.edited != 0) | !unchanged(w) {
        return slept(m, l, card.tallies.total, false);
    }
    let quiet = is_quiet(card.cells, card.edited, w, n);
    slept(m, l, card.tallies.total, quiet)
}
