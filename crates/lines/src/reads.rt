// The commands that change nothing in the card and can be refused: three reads at the pointer, and
// the saving of the record.
#![tactic(auto, unfolding(crate::specs::Line::decision, crate::specs::Line::change_for, crate::specs::Line::response_to, crate::specs::Refusal::refusal))]

ghost use Rattle.std.specs.Prelude.{◌≡◌};
ghost use Rattle.card.specs.Address.{cells_for};
ghost use Rattle.lines.specs.Refusal;
ghost use Rattle.lines.specs.Line.{slot_index, decision};

use crate::decision::{Accepted, Response, read};
use crate::refused::{Refused, refuse_if};
use card::change::Change;
use card::context::Context;
use card::valid;
use cells::table::Slots;
use grammar::grammar::{Command, Slot};
use saved::record::record_length;

// `36CCA Z?`: the configuration of the current cell, or a connector's source; 9 where the type has
// none.
pub fn config(x: Context) -> Result<Accepted, Refused>
    ensures { result ≡ decision (cells_for x.size) x 0 Command.GetConfig }
{
    refuse_if(
        x.at_cell & valid::no_config(x.cell.kind),
        Refused::BadConfig,
    )?;
    Ok(read(card::context::read_config(x)))
}

// `36CCA F?`: the state of the current cell; 6 at a connector, 12 where the type keeps none.
pub fn state(x: Context) -> Result<Accepted, Refused>
    ensures { result ≡ decision (cells_for x.size) x 0 Command.GetState }
{
    refuse_if(!x.at_cell, Refused::AtConnector)?;
    refuse_if(valid::no_state(x.cell.kind), Refused::BadState)?;
    Ok(read(card::context::read_state(x)))
}

// A slot by itself.
fn alone(s: Slot) -> Slots
    ensures { result ≡ Refusal.alone s }
{
    Slots {
        x: s == Slot::X,
        y: s == Slot::Y,
        z: s == Slot::Z,
        f: s == Slot::F,
    }
}

// Its place among the four.
fn slot_index(s: Slot) -> usize
    ensures { result ≡ slot_index s }
{
    s as usize
}

// `36CCB p?`: the address in a slot of the current cell; 6 at a connector, 10 where the type does
// not use it.
pub fn slot(x: Context, s: Slot) -> Result<Accepted, Refused>
    ensures { result ≡ decision (cells_for x.size) x 0 (Command.GetSlot s) }
{
    refuse_if(!x.at_cell, Refused::AtConnector)?;
    refuse_if(
        valid::unused_slot(x.cell.kind, alone(s)),
        Refused::UnusedSlot,
    )?;
    Ok(read(card::context::read_slot(x, slot_index(s))))
}

// `36SS Z`, for a store of this many bytes: 1 where it is too short.
pub fn save(x: Context, store: usize) -> Result<Accepted, Refused>
    ensures { result ≡ decision (cells_for x.size) x store Command.Save }
{
    refuse_if(store < record_length(x.size), Refused::NoRoom)?;
    Ok(Accepted {
        change: Change::Nothing,
        response: Response::Saves,
    })
}
