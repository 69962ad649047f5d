// What an accepted line changes in the card, as a value: a command is judged by a small part of the
// card, and the card is changed in one place.
ghost use Rattle.std.specs.Prelude.{◌≡◌};
ghost use Rattle.card.specs.Address.{cells_for};
ghost use Rattle.card.specs.Change.{changed};

use crate::card::Card;
use crate::edits;
use crate::limits::Number;
use crate::presets::apply_preset;
use cells::cell::{Config, Count};
use cells::table::Slots;

// The slots that a write gives, each with its address.
#[derive(Clone, Copy, Debug, PartialEq, Eq)]
pub struct Wires {
    pub given: Slots,
    pub x: u8,
    pub y: u8,
    pub z: u8,
    pub f: u8,
}

// `Kind`, `Config`, `State` and `Slots` are of the cell at the pointer, `ConnectorKind` and
// `Source` of the connector there.
#[derive(Clone, Copy, Debug, PartialEq, Eq)]
pub enum Change {
    Nothing,
    Pointer(u8),
    Trigger(u8),
    Home,
    Preset(Number),
    Kind(u8),
    Config(Config),
    State(Count),
    Slots(Wires),
    ConnectorKind(u8),
    Source(u8),
}

// The card with a change made.
#[tactic(auto, unfolding(crate::specs::Change::changed))]
pub fn apply(card: Card, change: Change) -> Card
    ensures { result ≡ changed (cells_for card.size) card change }
{
    match change {
        Change::Nothing => card,
        Change::Pointer(p) => edits::move_to(card, p),
        Change::Trigger(t) => edits::set_trigger(card, t),
        Change::Home => edits::home(card),
        Change::Preset(v) => apply_preset(card, v),
        Change::Kind(kind) => edits::set_type(card, kind),
        Change::Config(v) => edits::set_config(card, v),
        Change::State(v) => edits::set_state(card, v),
        Change::Slots(w) => edits::set_slots(card, w.given, [w.x, w.y, w.z, w.f]),
        Change::ConnectorKind(kind) => edits::set_connector_type(card, kind),
        Change::Source(source) => edits::set_source(card, source),
    }
}
