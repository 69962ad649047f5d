// Whether a quick tick works out a cell.
ghost use Rattle.std.specs.Prelude.{◌≡◌};
ghost use Rattle.cells.specs.Wake;
ghost use Rattle.cells.specs.Wake.{timer_clock, timer_stirred, flop_clock, counter_clock, has_start, counter_stirred};
ghost use Rattle.cells.specs.Wake.{stirred_as, has_edges};

use crate::cell::{Pulses, State};
use crate::table::{Class, CounterKind, FlopKind, Slots, TYPES, class_of, used_of};

// Whether a timer's clock is high while there is something to count or to end.
pub fn timer_clock(count: Pulses, pulse: bool, r: Slots) -> bool
    ensures { result ≡ timer_clock count.0 pulse r }
{
    r.y & ((0 < count.0) | pulse)
}

// Whether a timer's trigger is high, or that clock.
pub fn timer_stirred(count: Pulses, pulse: bool, r: Slots) -> bool
    ensures { result ≡ timer_stirred count.0 pulse r }
{
    (r.x | r.f) | timer_clock(count, pulse, r)
}

// Whether a flip-flop's clock slot is high.
pub fn flop_clock(flop: FlopKind, r: Slots) -> bool
    ensures { result ≡ flop_clock flop r }
{
    match flop {
        FlopKind::DFlop | FlopKind::SyncDFlop | FlopKind::ClearDFlop => r.y,
        FlopKind::Jk => r.z,
    }
}

// Whether a counter's clock is high while it is active; `active` is what it kept.
pub fn counter_clock(counter: CounterKind, active: bool, r: Slots) -> bool
    ensures { result ≡ counter_clock counter active r }
{
    match counter {
        CounterKind::WhileBoth => r.y & (r.x & r.f),
        CounterKind::WhileEither => r.y & (r.x | r.f),
        CounterKind::FromStart => r.y & active,
        CounterKind::FromStartAtZero => r.y & active,
    }
}

// Whether a counter has start and stop.
pub fn has_start(counter: CounterKind) -> bool
    ensures { result ≡ has_start counter }
{
    matches!(
        counter,
        CounterKind::FromStart | CounterKind::FromStartAtZero
    )
}

// Whether a counter's start or stop is high, or that clock.
pub fn counter_stirred(counter: CounterKind, active: bool, r: Slots) -> bool
    ensures { result ≡ counter_stirred counter active r }
{
    (has_start(counter) & (r.x | r.f)) | counter_clock(counter, active, r)
}

// Whether an edge that matters to the class is high among the used readings.
#[tactic(auto, unfolding(crate::specs::Wake::stirred_as))]
fn stirred_as(class: Class, s: State, r: Slots) -> bool
    ensures { result ≡ stirred_as class s r }
{
    match class {
        Class::Nothing | Class::Constant | Class::Gate(_) => false,
        Class::Flop(flop) => flop_clock(flop, r),
        Class::OneShot(_) | Class::Delay(_) => timer_stirred(s.count, s.pulse, r),
        Class::Counter(counter) => counter_stirred(counter, s.bit, r),
    }
}

// Whether a cell of a type is stirred by what its slots read. Slots that the type does not use do
// not count.
#[tactic(auto, unfolding(crate::specs::Wake::stirred))]
pub fn stirred(kind: u8, s: State, r: Slots) -> bool
    ensures { result ≡ Wake.stirred kind s r }
{
    stirred_as(class_of(kind), s, r.within(used_of(kind)))
}

// The types that have edge slots, a bit for each: a tick on a quiet card asks this of every cell.
const EDGED: u64 = 0x7ff302;

// Whether a type has edge slots, as its row of the table says. One that has none is never stirred
// (law `edgeless-still`).
pub fn has_edges(kind: u8) -> bool
    ensures { result ≡ has_edges kind }
{
    let n = kind as u32;
    if n < TYPES as u32 {
        words::bit(EDGED, n)
    } else {
        false
    }
}
