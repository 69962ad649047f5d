// A cell asked and worked out: one dispatch by type says whether the rules name it, and what
// becomes of it. A full tick works out every cell and asks each all the same; a quick tick works
// out those that the rules name.
ghost use Rattle.std.specs.Prelude.{◌||◌, ◌≡◌};
ghost use Rattle.cells.specs.State.{state_of};
ghost use Rattle.cells.specs.Reading.{slots_at};
ghost use Rattle.cells.specs.Wake;
ghost use Rattle.cells.specs.Wake.{moved};
ghost use Rattle.cells.specs.Work.{looked_at, work_out};
ghost use Rattle.cells.specs.Effect.{asleep, StepsTo};

use crate::cell::Cell;
use crate::families::{
    counter_step, delay_step, fixed_step, flop_step, gate_step, look_step, shot_step,
};
use crate::reading::Seen;
use crate::table::{CounterKind, FlopKind, GateKind, ONLY_Z, Slots, XY, XYZ, XYZF};
use crate::work::{DECIDES_AND, DECIDES_OR, Effect};

// Whether the rules name a cell, what becomes of it, and at how many slots it looked one by one: a
// gate of four slots that is worked out at 1 to 4, any other cell at none. A tick does not use the
// number, which its contract checks; the compiler leaves it out.
#[derive(Clone, Copy, Debug, PartialEq, Eq)]
pub struct Stepped {
    pub named: bool,
    pub effect: Effect,
    pub looked: u8,
}

impl Stepped {
    // A cell that is not worked out.
    pub(crate) fn slept(named: bool) -> Stepped
        ensures { result ≡ asleep named }
    {
        Stepped {
            named,
            effect: Effect::Slept,
            looked: 0,
        }
    }
}

// The level slots of a D flip-flop, and of a counter that counts while A and B say so.
const XZF: Slots = Slots {
    x: true,
    f: true,
    ..ONLY_Z
};

// A cell, asked and worked out. A number past the table is no type: such a cell does nothing.
pub fn step(full: bool, edited: bool, cell: Cell, seen: &Seen) -> Stepped
    ensures { let s = state_of cell in let r = slots_at seen.now.reads cell.slots in
        StepsTo result full (edited || (Wake.stirred cell.kind s r ||
        moved cell.kind (slots_at seen.now.moved cell.slots))) s
        (work_out cell.kind cell.config s r) (looked_at cell.kind r) }
{
    match cell.kind {
        0 => fixed_step(full, edited, cell.config != 0),
        1 => flop_step(FlopKind::DFlop, XZF, full, edited, cell, seen),
        2 => gate_step(GateKind::Lookup, XY, full, edited, cell, seen),
        3 => gate_step(GateKind::Lookup, XYZ, full, edited, cell, seen),
        4 => gate_step(GateKind::Lookup, XYZF, full, edited, cell, seen),
        5 => gate_step(GateKind::And2, XY, full, edited, cell, seen),
        6 => gate_step(GateKind::Or2, XY, full, edited, cell, seen),
        7 => gate_step(GateKind::Xor2, XY, full, edited, cell, seen),
        8 => shot_step(true, XYZ, full, edited, cell, seen),
        9 => delay_step(true, XYZ, full, edited, cell, seen),
        10 => look_step(DECIDES_AND, full, edited, cell, seen),
        11 => look_step(DECIDES_OR, full, edited, cell, seen),
        12 => flop_step(FlopKind::SyncDFlop, XZF, full, edited, cell, seen),
        13 => flop_step(FlopKind::Jk, XY, full, edited, cell, seen),
        14 => shot_step(false, XYZ, full, edited, cell, seen),
        15 => delay_step(false, XYZ, full, edited, cell, seen),
        16 => shot_step(false, XYZF, full, edited, cell, seen),
        17 => delay_step(false, XYZF, full, edited, cell, seen),
        18 => flop_step(FlopKind::ClearDFlop, XZF, full, edited, cell, seen),
        19 => counter_step(CounterKind::WhileBoth, XZF, full, edited, cell, seen),
        20 => counter_step(CounterKind::WhileEither, XZF, full, edited, cell, seen),
        21 => counter_step(CounterKind::FromStart, ONLY_Z, full, edited, cell, seen),
        22 => counter_step(
            CounterKind::FromStartAtZero,
            ONLY_Z,
            full,
            edited,
            cell,
            seen,
        ),
        _ => fixed_step(full, edited, false),
    }
}
