// A cell worked out: one function for each family.
ghost use Rattle.std.specs.Prelude.{Bool, ◌≡◌};
ghost use Rattle.cells.specs.declared.table.Class.TheVariants.{OneShot, Delay, Counter};
ghost use Rattle.cells.specs.declared.cell.Pulses.{Pulses};
ghost use Rattle.cells.specs.State.{state};
ghost use Rattle.cells.specs.Reading.{slots_at};
ghost use Rattle.cells.specs.Work;
ghost use Rattle.cells.specs.Work.{lookup_out, looked, d_flop, sync_d_flop, clear_d_flop, flop_next, shot_busy};
ghost use Rattle.cells.specs.Work.{delay_busy, next_count, next_pulse, pulses};
ghost use Rattle.cells.specs.Work.{count_after, pulse_after, started_by, active_after, kept_active, counted_up, work_as};
ghost use Rattle.cells.specs.Work.{gate_out};
ghost use Rattle.cells.specs.Effect.{worked_by};

use crate::cell::{Config, Count, Pulses};
use crate::reading::{Quarters, read};
use crate::table::{CounterKind, FlopKind, GateKind, Slots, packed};

// The bit of the code at the place that the readings choose.
pub(crate) fn lookup(code: Config, r: Slots) -> bool
    ensures { result ≡ lookup_out code r }
{
    words::bit(code as u64, packed(r.x, r.y, r.z, r.f))
}

// A lookup or a gate, by the readings of its slots.
pub(crate) fn gate_out(gate: GateKind, code: Config, r: Slots) -> bool
    ensures { result ≡ gate_out gate code r }
{
    match gate {
        GateKind::Lookup => lookup(code, r),
        GateKind::And2 => r.x & r.y,
        GateKind::Or2 => r.x | r.y,
        GateKind::Xor2 => r.x ^ r.y,
        GateKind::And4 => (r.x & r.y) & (r.z & r.f),
        GateKind::Or4 => (r.x | r.y) | (r.z | r.f),
    }
}

// What a gate of four slots answers, and how many slots it looked at.
#[derive(Clone, Copy, Debug, PartialEq, Eq)]
pub struct Looked {
    pub out: bool,
    pub slots: u8,
}

// A gate of four slots looks at F first, then at Z, Y and X, and stops at the first slot whose
// reading decides: a low one decides AND4, a high one OR4.
pub fn look(deciding: bool, slots: [u8; 4], q: &Quarters) -> Looked
    ensures { result ≡ looked deciding (slots_at q.now slots) }
{
    let [x, y, z, f] = slots;
    if read(q, f) == deciding {
        return Looked {
            out: deciding,
            slots: 1,
        };
    }
    if read(q, z) == deciding {
        return Looked {
            out: deciding,
            slots: 2,
        };
    }
    if read(q, y) == deciding {
        return Looked {
            out: deciding,
            slots: 3,
        };
    }
    Looked {
        out: read(q, x),
        slots: 4,
    }
}

// The readings that decide.
pub const DECIDES_AND: bool = false;

pub const DECIDES_OR: bool = true;

// A flip-flop's next bit. It reads a slot only where those before it have not decided: what is held
// in four bools would be packed into a word and taken apart.

fn d_flop(bit: bool, slots: [u8; 4], q: &Quarters) -> bool
    ensures { result ≡ d_flop (slots_at q.now slots) bit }
{
    let [x, y, z, f] = slots;
    if read(q, z) {
        false
    } else if read(q, f) {
        true
    } else if read(q, y) {
        read(q, x)
    } else {
        bit
    }
}

fn sync_d_flop(bit: bool, slots: [u8; 4], q: &Quarters) -> bool
    ensures { result ≡ sync_d_flop (slots_at q.now slots) bit }
{
    let [x, y, z, f] = slots;
    if read(q, y) {
        if read(q, z) {
            false
        } else if read(q, f) {
            true
        } else {
            read(q, x)
        }
    } else {
        bit
    }
}

fn clear_d_flop(bit: bool, slots: [u8; 4], q: &Quarters) -> bool
    ensures { result ≡ clear_d_flop (slots_at q.now slots) bit }
{
    let [x, y, z, f] = slots;
    if read(q, z) {
        false
    } else if read(q, y) {
        if read(q, f) { false } else { read(q, x) }
    } else {
        bit
    }
}

fn jk(bit: bool, slots: [u8; 4], q: &Quarters) -> bool
    ensures { result ≡ Work.jk (slots_at q.now slots) bit }
{
    let [x, y, z, _] = slots;
    if read(q, z) {
        if read(q, x) {
            if read(q, y) { !bit } else { true }
        } else {
            if read(q, y) { false } else { bit }
        }
    } else {
        bit
    }
}

// The next bit of a flip-flop.
pub(crate) fn flop(flop: FlopKind, bit: bool, slots: [u8; 4], q: &Quarters) -> bool
    ensures { result ≡ flop_next flop (slots_at q.now slots) bit }
{
    match flop {
        FlopKind::DFlop => d_flop(bit, slots, q),
        FlopKind::SyncDFlop => sync_d_flop(bit, slots, q),
        FlopKind::ClearDFlop => clear_d_flop(bit, slots, q),
        FlopKind::Jk => jk(bit, slots, q),
    }
}

// Whether a timer takes its trigger.
#[tactic(auto, unfolding(crate::specs::Work::taken))]
fn taken(retrigger: bool, r: Slots, busy: bool) -> bool
    ensures { result ≡ Work.taken retrigger r busy }
{
    (r.x | r.f) & (retrigger | !busy)
}

// A one-shot is busy while it counts, a delay in its pulse as well.
fn shot_busy(count: Pulses) -> bool
    ensures { result ≡ shot_busy count.0 }
{
    0 < count.0
}

fn delay_busy(count: Pulses, pulse: bool) -> bool
    ensures { result ≡ delay_busy count.0 pulse }
{
    (0 < count.0) | pulse
}

// A timer's count. A one-shot's and a delay's go the same way.
fn next_count(reset: bool, taken: bool, clock: bool, d: Pulses, count: Pulses) -> Pulses
    ensures { result ≡ pulses (next_count reset taken clock d.0 count.0) }
{
    if reset {
        Pulses(0)
    } else if taken {
        d
    } else if clock {
        if 0 < count.0 {
            Pulses(count.0 - 1)
        } else {
            count
        }
    } else {
        count
    }
}

// A delay's pulse.
fn next_pulse(reset: bool, taken: bool, clock: bool, d: Pulses, count: Pulses, pulse: bool) -> bool
    ensures { result ≡ next_pulse reset taken clock d.0 count.0 pulse }
{
    if reset {
        false
    } else if taken {
        d.0 == 0
    } else if clock {
        if 0 < count.0 {
            (count.0 == 1) | pulse
        } else {
            false
        }
    } else {
        pulse
    }
}

// A timer's count after this tick, in which the trigger is taken or not, and a delay's pulse; `d`
// is the duration.
fn count_after(taken: bool, d: Pulses, count: Pulses, r: Slots) -> Pulses
    ensures { result ≡ pulses (count_after taken d.0 count.0 r) }
{
    next_count(r.z, taken, r.y, d, count)
}

fn pulse_after(taken: bool, d: Pulses, count: Pulses, pulse: bool, r: Slots) -> bool
    ensures { result ≡ pulse_after taken d.0 count.0 pulse r }
{
    next_pulse(r.z, taken, r.y, d, count, pulse)
}

// ---- counters

// The largest count of a counter.
pub const LARGEST_COUNT: Count = 65535;

// Whether a counter that is started and stopped is active after this tick. `obeyed` says whether a
// start counts.
fn started_by(obeyed: bool, r: Slots, active: bool) -> bool
    ensures { result ≡ started_by obeyed r active }
{
    if r.z | r.f {
        false
    } else {
        (r.x & obeyed) | active
    }
}

// Whether a counter is active in this tick, from what it kept.
fn active_after(counter: CounterKind, r: Slots, count: Pulses, active: bool) -> bool
    ensures { result ≡ active_after counter r count.0 active }
{
    match counter {
        CounterKind::WhileBoth => r.x & r.f,
        CounterKind::WhileEither => r.x | r.f,
        CounterKind::FromStart => started_by(true, r, active),
        CounterKind::FromStartAtZero => started_by(count.0 == 0, r, active),
    }
}

// The bit that a counter keeps: in types 21 and 22 whether it is active, in the others as it was.
fn kept_active(counter: CounterKind, old: bool, new: bool) -> bool
    ensures { result ≡ kept_active counter old new }
{
    match counter {
        CounterKind::WhileBoth | CounterKind::WhileEither => old,
        CounterKind::FromStart | CounterKind::FromStartAtZero => new,
    }
}

// A count with one more, if there is room.
#[tactic(auto, unfolding(crate::specs::Work::raised))]
fn raised(count: Pulses) -> Pulses
    ensures { result ≡ pulses (Work.raised count.0) }
{
    if count.0 < LARGEST_COUNT {
        Pulses(count.0 + 1)
    } else {
        count
    }
}

// A counter's count.
fn counted_up(reset: bool, active: bool, clock: bool, count: Pulses) -> Pulses
    ensures { result ≡ pulses (counted_up reset active clock count.0) }
{
    if reset {
        Pulses(0)
    } else if active & clock {
        raised(count)
    } else {
        count
    }
}

// What becomes of a cell: nothing, its output alone, or with that what is new in its state. A
// caller writes back only what is new.
#[derive(Clone, Copy, Debug, PartialEq, Eq)]
pub enum Effect {
    // it was not worked out, and keeps its output
    Slept,
    // the state is the same, with an output
    Same(bool),
    // a flip-flop's bit, which is the output
    Bit(bool),
    // a one-shot's count: the output is high while it is above 0
    Count(Pulses),
    // a delay's count, and its pulse, which is the output
    Timed(Pulses, bool),
    // a counter's count, what it keeps of "active", and the output
    Counted(Pulses, bool, bool),
}

// Each of the families asks only for the parts of the state that matter to it, and says what
// becomes of any state that has them.

#[tactic(auto, unfolding(crate::specs::Work::work_as))]
pub(crate) fn one_shot(retrigger: bool, config: Config, count: Pulses, r: Slots) -> Effect
    ensures { (bit pulse out : Bool)
        → let s = state count bit pulse in worked_by s out result ≡ work_as (OneShot retrigger) config s r }
{
    let took = taken(retrigger, r, shot_busy(count));
    Effect::Count(count_after(took, Pulses(config), count, r))
}

#[tactic(auto, unfolding(crate::specs::Work::work_as))]
pub(crate) fn delay(retrigger: bool, config: Config, count: Pulses, pulse: bool, r: Slots) -> Effect
    ensures { (bit out : Bool)
        → let s = state count bit pulse in worked_by s out result ≡ work_as (Delay retrigger) config s r }
{
    let took = taken(retrigger, r, delay_busy(count, pulse));
    let next = count_after(took, Pulses(config), count, r);
    Effect::Timed(next, pulse_after(took, Pulses(config), count, pulse, r))
}

#[tactic(auto, unfolding(crate::specs::Work::work_as))]
pub(crate) fn counter(counter: CounterKind, count: Pulses, bit: bool, r: Slots) -> Effect
    ensures { (pulse out : Bool)
        → let s = state count bit pulse in worked_by s out result ≡ work_as (Counter counter) 0 s r }
{
    let active = active_after(counter, r, count, bit);
    let next = counted_up(r.z, active, r.y, count);
    Effect::Counted(next, kept_active(counter, bit, active), active)
}
