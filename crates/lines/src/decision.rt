// What a line comes to, by a small part of the card: the change that it makes and the response, or
// why it is refused.
ghost use Rattle.std.specs.Prelude.{◌≡◌};
ghost use Rattle.card.specs.Address.{cells_for};
ghost use Rattle.lines.specs.Refusal.{too_large};
ghost use Rattle.lines.specs.Line.{saves, read_as, written_as, decision, decision_for};

use crate::refused::Refused;
use crate::{reads, writes};
use card::change::Change;
use card::context::{Context, Value};
use card::limits::Number;
use grammar::grammar::{Command, NoCommand};

// The largest number that a command may give.
const LARGEST_NUMBER: Number = 4294967295;

// The response to a command: nothing, a number, or the record that it saves.
#[derive(Clone, Copy)]
pub enum Response {
    Silent,
    Number(Value),
    Saves,
}

impl Response {
    // Whether it is to save the record.
    pub fn saves(self) -> bool
        ensures { result ≡ saves self }
    {
        matches!(self, Response::Saves)
    }
}

// What an accepted line comes to: the change that is then to be made, and the response.
#[derive(Clone, Copy)]
pub struct Accepted {
    pub change: Change,
    pub response: Response,
}

// 4: more than a line's number may be.
pub(crate) fn too_large(v: Number) -> bool
    ensures { result ≡ too_large v }
{
    LARGEST_NUMBER < v
}

// A write: a change, and nothing to say.
pub(crate) fn write(change: Change) -> Accepted
    ensures { result ≡ written_as change }
{
    Accepted {
        change,
        response: Response::Silent,
    }
}

// A read: no change.
pub(crate) fn read(v: Value) -> Accepted
    ensures { result ≡ read_as v }
{
    Accepted {
        change: Change::Nothing,
        response: Response::Number(v),
    }
}

// What a command comes to.
#[tactic(auto, unfolding(crate::specs::Line::decision, crate::specs::Line::change_for, crate::specs::Line::response_to, crate::specs::Refusal::refusal))]
fn decide(x: Context, store: usize, command: Command) -> Result<Accepted, Refused>
    ensures { result ≡ decision (cells_for x.size) x store command }
{
    match command {
        Command::Move(v) => writes::to_place(x, v),
        Command::Where => Ok(read(x.pointer as Value)),
        Command::Trigger(v) => writes::to_trigger(x, v),
        Command::Home => Ok(write(Change::Home)),
        Command::Preset(v) => writes::to_preset(x, v),
        Command::SetKind(v) => writes::to_kind(x, v),
        Command::SetConfig(v) => writes::to_config(x, v),
        Command::SetState(v) => writes::to_state(x, v),
        Command::GetKind => Ok(read(card::context::read_type(x))),
        Command::GetConfig => reads::config(x),
        Command::GetState => reads::state(x),
        Command::SetSlots(p) => writes::to_slots(x, p),
        Command::GetSlot(s) => reads::slot(x, s),
        Command::Front => Ok(read(card::context::read_front(x))),
        Command::Back => Ok(read(card::context::read_back(x))),
        Command::Cells => Ok(read(card::context::read_lower(x))),
        Command::Upper => Ok(read(card::context::read_upper(x))),
        Command::Save => reads::save(x, store),
    }
}

// What a parsed line comes to, where the store has this many bytes. The card itself is not needed:
// Context holds what counts of it.
#[tactic(auto, unfolding(crate::specs::Line::decision_for))]
pub fn decide_for(
    x: Context,
    store: usize,
    p: Result<Command, NoCommand>,
) -> Result<Accepted, Refused>
    ensures { result ≡ decision_for (cells_for x.size) x store p }
{
    decide(x, store, p?)
}
