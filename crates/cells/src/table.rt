// The constant table by cell type.
ghost use Rattle.std.specs.Prelude.{◌≡◌, ◌<◌};
ghost use Rattle.cells.specs.Table.{slots, masked, any_slot, kept_by, row_of};
ghost use Rattle.cells.specs.Work.{place_of, slots_of};

use crate::cell::Config;

// One bit for each input slot: the readings of the four, or a set of them.
#[repr(C)]
#[derive(Clone, Copy, Debug, PartialEq, Eq)]
pub struct Slots {
    pub x: bool,
    pub y: bool,
    pub z: bool,
    pub f: bool,
}

impl Slots {
    // The readings of the slots of a set; a slot outside it reads low.
    pub fn within(self, set: Slots) -> Slots
        ensures { result ≡ masked set self }
    {
        Slots {
            x: set.x & self.x,
            y: set.y & self.y,
            z: set.z & self.z,
            f: set.f & self.f,
        }
    }

    // Whether some slot is in the set.
    pub fn any(self) -> bool
        ensures { result ≡ any_slot self }
    {
        (self.x | self.y) | (self.z | self.f)
    }
}

// The gates. A lookup reads its configuration, the code; the others read their slots alone.
#[derive(Clone, Copy, Debug, PartialEq, Eq)]
pub enum GateKind {
    Lookup,
    And2,
    Or2,
    Xor2,
    And4,
    Or4,
}

// The flip-flops, types 1, 12, 18 and 13.
#[derive(Clone, Copy, Debug, PartialEq, Eq)]
pub enum FlopKind {
    DFlop,
    SyncDFlop,
    ClearDFlop,
    Jk,
}

// The counters, types 19 to 22: active while A and B are high, or while either is; from start to
// stop, or so if started at a count of 0.
#[derive(Clone, Copy, Debug, PartialEq, Eq)]
pub enum CounterKind {
    WhileBoth,
    WhileEither,
    FromStart,
    FromStartAtZero,
}

// What a type does: a family, with what distinguishes its members. One-shots and delays say whether
// they take a trigger while they are busy.
#[derive(Clone, Copy, Debug, PartialEq, Eq)]
pub enum Class {
    Nothing,
    Constant,
    Gate(GateKind),
    Flop(FlopKind),
    OneShot(bool),
    Delay(bool),
    Counter(CounterKind),
}

// What a type keeps between ticks: nothing, a flip-flop's bit, a timer's count and pulse, or a
// counter's count and whether it is active.
#[derive(Clone, Copy, Debug, PartialEq, Eq)]
pub enum Kept {
    Stateless,
    Bit,
    Count,
    Counted,
}

// What the table holds of a type: the slots used, the edge slots, the largest configuration of a
// type that has one, what it does, and what it keeps.
#[derive(Clone, Copy, Debug, PartialEq, Eq)]
pub struct Row {
    pub used: Slots,
    pub edge: Slots,
    pub largest: Option<Config>,
    pub class: Class,
    pub kept: Kept,
}

// The number of cell types. A type is a number below it.
pub const TYPES: usize = 23;

// The sets of slots that the table names.
pub(crate) const NONE: Slots = Slots {
    x: false,
    y: false,
    z: false,
    f: false,
};

pub(crate) const XY: Slots = Slots {
    x: true,
    y: true,
    ..NONE
};

pub(crate) const XYZ: Slots = Slots { z: true, ..XY };

pub(crate) const XYZF: Slots = Slots { f: true, ..XYZ };

pub(crate) const XYF: Slots = Slots { f: true, ..XY };

pub(crate) const ONLY_Y: Slots = Slots { y: true, ..NONE };

pub(crate) const ONLY_Z: Slots = Slots { z: true, ..NONE };

// The table is kept by columns, each by type number: a tick reads some columns for every cell.

// The slots used.
static USED: [Slots; TYPES] = [
    NONE, XYZF, XY, XYZ, XYZF, XY, XY, XY, XYZ, XYZ, XYZF, XYZF, XYZF, XYZ, XYZ, XYZ, XYZF, XYZF,
    XYZF, XYZF, XYZF, XYZF, XYZF,
];

// The edge slots.
static EDGE: [Slots; TYPES] = [
    NONE, ONLY_Y, NONE, NONE, NONE, NONE, NONE, NONE, XY, XY, NONE, NONE, ONLY_Y, ONLY_Z, XY, XY,
    XYF, XYF, ONLY_Y, ONLY_Y, ONLY_Y, XYF, XYF,
];

// The type of constants, and the largest of them.
pub const CONSTANT: u8 = 0;

pub const LARGEST_CONSTANT: Config = 1;

// The largest code of a lookup of four slots, and the largest duration.
const LARGEST_CODE: Config = 65535;

const LARGEST_DURATION: Config = 4294967295;

// The largest configuration, of the types that have one.
static LARGEST: [Option<Config>; TYPES] = [
    Some(LARGEST_CONSTANT),
    None,
    Some(15),
    Some(255),
    Some(LARGEST_CODE),
    None,
    None,
    None,
    Some(LARGEST_DURATION),
    Some(LARGEST_DURATION),
    None,
    None,
    None,
    None,
    Some(LARGEST_DURATION),
    Some(LARGEST_DURATION),
    Some(LARGEST_DURATION),
    Some(LARGEST_DURATION),
    None,
    None,
    None,
    None,
    None,
];

// Four readings, packed: a number below 16.
pub fn packed(x: bool, y: bool, z: bool, f: bool) -> u32
    ensures { (result ≡ place_of (slots x y z f)) × (result < 16) }
{
    u32::from(x) + 2 * u32::from(y) + 4 * u32::from(z) + 8 * u32::from(f)
}

// Packed readings, taken apart. Only the lowest four bits count.
#[tactic(auto, unfolding(crate::specs::Work::slots_of))]
pub fn unpacked(p: u32) -> Slots
    ensures { result ≡ slots_of p }
{
    let w = p as u64;
    Slots {
        x: words::bit(w, 0),
        y: words::bit(w, 1),
        z: words::bit(w, 2),
        f: words::bit(w, 3),
    }
}

// What a type does. A number past the table is no cell type: such a cell does nothing.
#[tactic(auto, unfolding(crate::specs::Table::row_of))]
pub fn class_of(kind: u8) -> Class
    ensures { result ≡ (row_of kind).class }
{
    match kind {
        0 => Class::Constant,
        1 => Class::Flop(FlopKind::DFlop),
        2 => Class::Gate(GateKind::Lookup),
        3 => Class::Gate(GateKind::Lookup),
        4 => Class::Gate(GateKind::Lookup),
        5 => Class::Gate(GateKind::And2),
        6 => Class::Gate(GateKind::Or2),
        7 => Class::Gate(GateKind::Xor2),
        8 => Class::OneShot(true),
        9 => Class::Delay(true),
        10 => Class::Gate(GateKind::And4),
        11 => Class::Gate(GateKind::Or4),
        12 => Class::Flop(FlopKind::SyncDFlop),
        13 => Class::Flop(FlopKind::Jk),
        14 => Class::OneShot(false),
        15 => Class::Delay(false),
        16 => Class::OneShot(false),
        17 => Class::Delay(false),
        18 => Class::Flop(FlopKind::ClearDFlop),
        19 => Class::Counter(CounterKind::WhileBoth),
        20 => Class::Counter(CounterKind::WhileEither),
        21 => Class::Counter(CounterKind::FromStart),
        22 => Class::Counter(CounterKind::FromStartAtZero),
        _ => Class::Nothing,
    }
}

// What a class keeps between ticks.
fn kept_by(class: Class) -> Kept
    ensures { result ≡ kept_by class }
{
    match class {
        Class::Nothing | Class::Constant | Class::Gate(_) => Kept::Stateless,
        Class::Flop(_) => Kept::Bit,
        Class::OneShot(_) | Class::Delay(_) => Kept::Count,
        Class::Counter(_) => Kept::Counted,
    }
}

// The slots that a type uses; past the table none.
pub fn used_of(kind: u8) -> Slots
    ensures { result ≡ (row_of kind).used }
{
    let n = kind as usize;
    if n < TYPES { USED[n] } else { NONE }
}

// Its edge slots; past the table none.
fn edge_of(kind: u8) -> Slots
    ensures { result ≡ (row_of kind).edge }
{
    let n = kind as usize;
    if n < TYPES { EDGE[n] } else { NONE }
}

// Its largest configuration, if it has one.
fn largest_of(kind: u8) -> Option<Config>
    ensures { result ≡ (row_of kind).largest }
{
    let n = kind as usize;
    if n < TYPES { LARGEST[n] } else { None }
}

// The whole row of a type. A number past the table has no slots and no configuration, keeps nothing
// and does nothing.
pub fn row_of(kind: u8) -> Row
    ensures { result ≡ row_of kind }
{
    let class = class_of(kind);
    Row {
        used: used_of(kind),
        edge: edge_of(kind),
        largest: largest_of(kind),
        class,
        kept: kept_by(class),
    }
}
