// Names of types, of slots with what they are for, of places and addresses; and what a type is.
ghost use Rattle.std.specs.Prelude.{Contains};

use crate::names::type_name;
use card::limits::{CONNECTORS_END, FIRST_CONNECTOR};
use cells::cell::Cell;
use cells::table::{Class, CounterKind, FlopKind, class_of};
use grammar::grammar::Slot;
use std::fmt;

// ---- what a type is

pub fn is_flop(kind: u8) -> bool {
    matches!(class_of(kind), Class::Flop(_))
}

pub fn is_delay(kind: u8) -> bool {
    matches!(class_of(kind), Class::Delay(_))
}

// A one-shot or a delay.
pub fn is_timer(kind: u8) -> bool {
    matches!(class_of(kind), Class::OneShot(_) | Class::Delay(_))
}

pub fn is_counter(kind: u8) -> bool {
    matches!(class_of(kind), Class::Counter(_))
}

// ---- slots

// A slot's letter.
pub(crate) fn letter(slot: Slot) -> char {
    match slot {
        Slot::X => 'X',
        Slot::Y => 'Y',
        Slot::Z => 'Z',
        Slot::F => 'F',
    }
}

// The address in a slot.
pub fn address_in(cell: Cell, slot: Slot) -> u8
    ensures { Contains cell.slots result }
{
    let [x, y, z, f] = cell.slots;
    match slot {
        Slot::X => x,
        Slot::Y => y,
        Slot::Z => z,
        Slot::F => f,
    }
}

// The clock's slot: Z in a JK, Y in the others.
pub fn clock_slot(kind: u8) -> Slot {
    match class_of(kind) {
        Class::Flop(FlopKind::Jk) => Slot::Z,
        _ => Slot::Y,
    }
}

// What a slot of a flip-flop is for.
fn flop_role(flop: FlopKind, slot: Slot) -> &'static str {
    match (flop, slot) {
        (FlopKind::Jk, Slot::X) => " (J)",
        (FlopKind::Jk, Slot::Y) => " (K)",
        (FlopKind::Jk, Slot::Z) => " (clock)",
        (FlopKind::Jk, Slot::F) => "",
        (_, Slot::X) => " (D)",
        (_, Slot::Y) => " (clock)",
        (FlopKind::SyncDFlop, Slot::Z) => " (reset at clock)",
        (_, Slot::Z) => " (reset)",
        (FlopKind::DFlop, Slot::F) => " (preset)",
        (FlopKind::SyncDFlop, Slot::F) => " (preset at clock)",
        (FlopKind::ClearDFlop, Slot::F) => " (reset at clock)",
    }
}

// What a slot of a timer or a counter is for, whose X and F have these roles.
fn timed_role(slot: Slot, x: &'static str, f: &'static str) -> &'static str {
    match slot {
        Slot::X => x,
        Slot::Y => " (clock)",
        Slot::Z => " (reset)",
        Slot::F => f,
    }
}

// What a slot of a type is for; a gate's are all alike.
fn role(kind: u8, slot: Slot) -> &'static str {
    match class_of(kind) {
        Class::Flop(flop) => flop_role(flop, slot),
        Class::OneShot(_) | Class::Delay(_) => timed_role(slot, " (trigger)", " (second trigger)"),
        Class::Counter(CounterKind::WhileBoth | CounterKind::WhileEither) => {
            timed_role(slot, " (A)", " (B)")
        }
        Class::Counter(_) => timed_role(slot, " (start)", " (stop)"),
        _ => "",
    }
}

// A slot of a type with what it is for: "Y (clock)".
#[derive(Clone, Copy)]
pub struct SlotName {
    pub kind: u8,
    pub slot: Slot,
}

impl fmt::Display for SlotName {
    fn fmt<W: fmt::Write>(&self, f: &mut fmt::Formatter<W>) -> fmt::Result {
        write!(f, "{}{}", letter(self.slot), role(self.kind, self.slot))
    }
}

// A configuration of a type, with what it is: "duration 2".
#[derive(Clone, Copy)]
pub struct Setting {
    pub kind: u8,
    pub config: u32,
}

impl fmt::Display for Setting {
    fn fmt<W: fmt::Write>(&self, f: &mut fmt::Formatter<W>) -> fmt::Result {
        let config = self.config;
        match class_of(self.kind) {
            Class::Constant => write!(f, "value {config}"),
            Class::Gate(_) => write!(f, "code {config}"),
            Class::OneShot(_) | Class::Delay(_) => write!(f, "duration {config}"),
            _ => Ok(()),
        }
    }
}

// ---- places and addresses

// Connector k, counted from 0: "BNC1" to "BNC8", "TTL0" to "TTL7".
#[derive(Clone, Copy)]
pub struct Line(pub u8);

impl fmt::Display for Line {
    fn fmt<W: fmt::Write>(&self, f: &mut fmt::Formatter<W>) -> fmt::Result {
        let k = self.0;
        if k < 8 {
            return write!(f, "BNC{}", k + 1);
        }
        write!(f, "TTL{}", k % 8)
    }
}

// Cell i, counted from 0: "cell 1".
#[derive(Clone, Copy)]
pub struct CellName(pub u8);

impl fmt::Display for CellName {
    fn fmt<W: fmt::Write>(&self, f: &mut fmt::Formatter<W>) -> fmt::Result {
        write!(f, "cell {}", self.0 as u32 + 1)
    }
}

// Cell i, counted from 0, with its type: "cell 1 (AND2)".
#[derive(Clone, Copy)]
pub struct TypedCell {
    pub i: u8,
    pub kind: u8,
}

impl fmt::Display for TypedCell {
    fn fmt<W: fmt::Write>(&self, f: &mut fmt::Formatter<W>) -> fmt::Result {
        write!(f, "{} ({})", CellName(self.i), type_name(self.kind))
    }
}

// The cell or the connector at a place, which is also its base.
#[derive(Clone, Copy)]
pub struct Place(pub u8);

impl fmt::Display for Place {
    fn fmt<W: fmt::Write>(&self, f: &mut fmt::Formatter<W>) -> fmt::Result {
        let place = self.0;
        match place {
            0..FIRST_CONNECTOR => write!(f, "cell {place}"),
            FIRST_CONNECTOR..CONNECTORS_END => write!(f, "{}", Line(place - FIRST_CONNECTOR)),
            _ => write!(f, "reserved"),
        }
    }
}

// An address with what it reads: "169, rise of TTL0".
#[derive(Clone, Copy)]
pub struct Address(pub u8);

impl fmt::Display for Address {
    fn fmt<W: fmt::Write>(&self, f: &mut fmt::Formatter<W>) -> fmt::Result {
        let address = self.0;
        let base = Place(address % 64);
        write!(f, "{address}, ")?;
        match address / 64 {
            0 | 2 if base.0 == 0 => write!(f, "always low"),
            _ if base.0 == 0 => write!(f, "always high"),
            0 => write!(f, "{base}"),
            1 => write!(f, "inverse of {base}"),
            2 => write!(f, "rise of {base}"),
            _ => write!(f, "fall of {base}"),
        }
    }
}

// What a connector of a type is, with its source: "push-pull from 1, cell 1".
#[derive(Clone, Copy)]
pub struct Source {
    pub kind: u8,
    pub source: u8,
}

impl fmt::Display for Source {
    fn fmt<W: fmt::Write>(&self, f: &mut fmt::Formatter<W>) -> fmt::Result {
        let source = Address(self.source);
        match self.kind {
            0 => write!(f, "input"),
            1 => write!(f, "open-drain from {source}"),
            _ => write!(f, "push-pull from {source}"),
        }
    }
}

// The level of a bit.
#[derive(Clone, Copy)]
pub struct Level(pub bool);

impl fmt::Display for Level {
    fn fmt<W: fmt::Write>(&self, f: &mut fmt::Formatter<W>) -> fmt::Result {
        f.write_str(if self.0 { "high" } else { "low" })
    }
}
