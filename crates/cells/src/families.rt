// The steps of the families of cells: a function for each way of reading the slots, which asks
// whether the rules name the cell and reads for the work only where there is work.
ghost use Rattle.std.specs.Prelude.{◌||◌, ◌≡◌};
ghost use Rattle.cells.specs.declared.table.Class.TheVariants.{Gate, Flop, OneShot, Delay, Counter};
ghost use Rattle.cells.specs.declared.cell.State.{State};
ghost use Rattle.cells.specs.Table.{masked, any_slot, only_z};
ghost use Rattle.cells.specs.State.{state_of};
ghost use Rattle.cells.specs.Reading.{slots_at};
ghost use Rattle.cells.specs.Wake.{timer_stirred, flop_clock, counter_stirred};
ghost use Rattle.cells.specs.Work.{keeping, looked, work_as};
ghost use Rattle.cells.specs.Effect.{StepsTo};

use crate::cell::Cell;
use crate::reading::{Seen, read, read_slots, read_used};
use crate::step::Stepped;
use crate::table::{CounterKind, FlopKind, GateKind, ONLY_Z, Slots, XYZF};
use crate::wake::{counter_stirred, timer_stirred};
use crate::work::{Effect, counter, delay, flop, gate_out, look, one_shot};

// Whether one of a cell's level slots has changed since the last tick that ran.
#[inline(always)]
fn moved(levels: Slots, cell: Cell, seen: &Seen) -> bool
    ensures { result ≡ any_slot (masked levels (slots_at seen.now.moved cell.slots)) }
{
    let [x, y, z, f] = cell.slots;
    let set = &seen.moved;
    ((levels.x && read(set, x)) || (levels.y && read(set, y)))
        || ((levels.z && read(set, z)) || (levels.f && read(set, f)))
}

// Whether a cell is stirred, or one of its level slots has changed. The slots of a cell that is
// stirred are not read.
#[inline(always)]
fn wakes(stirred: bool, levels: Slots, cell: Cell, seen: &Seen) -> bool
    ensures { result ≡ (stirred || any_slot (masked levels (slots_at seen.now.moved cell.slots))) }
{
    stirred || moved(levels, cell, seen)
}

// A constant, or what is no type: only an edit names it.
#[inline(always)]
pub(crate) fn fixed_step(full: bool, edited: bool, out: bool) -> Stepped
    ensures { (s : State) → StepsTo result full edited s (keeping s out) 0 }
{
    if full | edited {
        Stepped {
            named: edited,
            effect: Effect::Same(out),
            looked: 0,
        }
    } else {
        Stepped::slept(edited)
    }
}

// A lookup of two, three or four slots, or a gate of two.
#[inline(always)]
pub(crate) fn gate_step(
    gate: GateKind,
    used: Slots,
    full: bool,
    edited: bool,
    cell: Cell,
    seen: &Seen,
) -> Stepped
    ensures { (s : State) → StepsTo result full (edited || any_slot (masked used (slots_at seen.now.moved cell.slots))) s
        (work_as (Gate gate) cell.config s (masked used (slots_at seen.now.reads cell.slots))) 0 }
{
    let named = edited | moved(used, cell, seen);
    if full | named {
        let r = read_used(&seen.reads, used, cell.slots);
        Stepped {
            named,
            effect: Effect::Same(gate_out(gate, cell.config, r)),
            looked: 0,
        }
    } else {
        Stepped::slept(named)
    }
}

// A gate of four slots, which looks at them one by one.
#[inline(always)]
pub(crate) fn look_step(
    deciding: bool,
    full: bool,
    edited: bool,
    cell: Cell,
    seen: &Seen,
) -> Stepped
    ensures { (s : State) → let l = looked deciding (slots_at seen.now.reads cell.slots) in
        StepsTo result full (edited || any_slot (slots_at seen.now.moved cell.slots)) s (keeping s l.out) l.slots }
{
    let named = edited | moved(XYZF, cell, seen);
    if full | named {
        let l = look(deciding, cell.slots, &seen.reads);
        Stepped {
            named,
            effect: Effect::Same(l.out),
            looked: l.slots,
        }
    } else {
        Stepped::slept(named)
    }
}

// Whether a flip-flop's clock slot is high, which no other slot is read for.
#[inline(always)]
fn clocked(flop: FlopKind, cell: Cell, seen: &Seen) -> bool
    ensures { result ≡ flop_clock flop (slots_at seen.now.reads cell.slots) }
{
    let [_, y, z, _] = cell.slots;
    match flop {
        FlopKind::DFlop | FlopKind::SyncDFlop | FlopKind::ClearDFlop => read(&seen.reads, y),
        FlopKind::Jk => read(&seen.reads, z),
    }
}

// A flip-flop.
#[inline(always)]
pub(crate) fn flop_step(
    flop_kind: FlopKind,
    levels: Slots,
    full: bool,
    edited: bool,
    cell: Cell,
    seen: &Seen,
) -> Stepped
    ensures { let s = state_of cell in let r = slots_at seen.now.reads cell.slots in
        StepsTo result full (edited || (flop_clock flop_kind r || any_slot (masked levels (slots_at seen.now.moved cell.slots)))) s
        (work_as (Flop flop_kind) 0 s r) 0 }
{
    let named = edited | wakes(clocked(flop_kind, cell, seen), levels, cell, seen);
    if full | named {
        Stepped {
            named,
            effect: Effect::Bit(flop(flop_kind, cell.bit, cell.slots, &seen.reads)),
            looked: 0,
        }
    } else {
        Stepped::slept(named)
    }
}

// A one-shot and a delay. The trigger and the clock are asked for in any case, and the reset is the
// one level slot.
#[inline(always)]
pub(crate) fn shot_step(
    retrigger: bool,
    used: Slots,
    full: bool,
    edited: bool,
    cell: Cell,
    seen: &Seen,
) -> Stepped
    ensures { let s = state_of cell in let r = masked used (slots_at seen.now.reads cell.slots) in
        StepsTo result full (edited || (timer_stirred cell.count.0 cell.pulse r || any_slot (masked only_z (slots_at seen.now.moved cell.slots)))) s
        (work_as (OneShot retrigger) cell.config s r) 0 }
{
    let r = read_used(&seen.reads, used, cell.slots);
    let named = edited | wakes(timer_stirred(cell.count, cell.pulse, r), ONLY_Z, cell, seen);
    if full | named {
        Stepped {
            named,
            effect: one_shot(retrigger, cell.config, cell.count, r),
            looked: 0,
        }
    } else {
        Stepped::slept(named)
    }
}

#[inline(always)]
pub(crate) fn delay_step(
    retrigger: bool,
    used: Slots,
    full: bool,
    edited: bool,
    cell: Cell,
    seen: &Seen,
) -> Stepped
    ensures { let s = state_of cell in let r = masked used (slots_at seen.now.reads cell.slots) in
        StepsTo result full (edited || (timer_stirred cell.count.0 cell.pulse r || any_slot (masked only_z (slots_at seen.now.moved cell.slots)))) s
        (work_as (Delay retrigger) cell.config s r) 0 }
{
    let r = read_used(&seen.reads, used, cell.slots);
    let named = edited | wakes(timer_stirred(cell.count, cell.pulse, r), ONLY_Z, cell, seen);
    if full | named {
        Stepped {
            named,
            effect: delay(retrigger, cell.config, cell.count, cell.pulse, r),
            looked: 0,
        }
    } else {
        Stepped::slept(named)
    }
}

// A counter.
#[inline(always)]
pub(crate) fn counter_step(
    kind: CounterKind,
    levels: Slots,
    full: bool,
    edited: bool,
    cell: Cell,
    seen: &Seen,
) -> Stepped
    ensures { let s = state_of cell in let r = slots_at seen.now.reads cell.slots in
        StepsTo result full (edited || (counter_stirred kind cell.bit r || any_slot (masked levels (slots_at seen.now.moved cell.slots)))) s
        (work_as (Counter kind) 0 s r) 0 }
{
    let r = read_slots(&seen.reads, cell.slots);
    let named = edited | wakes(counter_stirred(kind, cell.bit, r), levels, cell, seen);
    if full | named {
        Stepped {
            named,
            effect: counter(kind, cell.count, cell.bit, r),
            looked: 0,
        }
    } else {
        Stepped::slept(named)
    }
}
