// How often the waking rules named each cell, and how many ticks ran.
ghost use Rattle.std.specs.Prelude.{◌≡◌, ℕ, ◌+◌, ◌^◌, ◌<◌, ◌≤◌, true, if◌then◌else◌, nat_lt};
ghost use Rattle.words.specs.Bits.{bit_at};
ghost use Rattle.card.specs.Address.{cell_room};
ghost use Rattle.card.specs.Tally;

use crate::limits::{CELLS, CellWord};
use cells::cell::Ticks;

// For each cell the ticks in which the rules named it, and the ticks that ran.
#[repr(C)]
#[derive(Clone, Copy, Debug, PartialEq, Eq)]
pub struct Tallies {
    pub cells: [Ticks; CELLS],
    pub total: Ticks,
}

// No count goes beyond it; once the total is there, all of them stand still.
const STANDSTILL: u32 = 4294967295;

// The tallies of a card that powers up.
pub fn no_tallies() -> Tallies
    ensures { result ≡ Tally.no_tallies }
{
    Tallies {
        cells: [Ticks(0); CELLS],
        total: Ticks(0),
    }
}

// A number of ticks with one more: the total after a tick that ran, and the tally of a cell that
// the rules named.
#[tactic(auto, unfolding(crate::specs::Tally::counted))]
pub fn counted(v: Ticks) -> Ticks
    ensures { result ≡ Tally.counted true v }
{
    if v.0 < STANDSTILL { Ticks(v.0 + 1) } else { v }
}

// What a tick that ran comes to: the total after it, and the cells whose tallies may go up.
#[derive(Clone, Copy, Debug, PartialEq, Eq)]
struct Counts {
    total: Ticks,
    named: u64,
}

// At the standstill the total stays, and no tally goes up.
fn counting(total: Ticks, named: CellWord) -> Counts
    ensures total_value { result.total ≡ (if nat_lt total.0 Tally.standstill then Tally.ticks (total.0 + 1) else total) }
    ensures named_value { (result.named ≡ (if nat_lt total.0 Tally.standstill then named else 0)) × (result.named < 2 ^ cell_room) }
{
    if total.0 < STANDSTILL {
        return Counts {
            total: Ticks(total.0 + 1),
            named: u64::from(named),
        };
    }
    Counts { total, named: 0 }
}

// The tallies after a tick that ran, in which the rules named these cells. It goes from one named
// cell to the next: those are few. There is one way through it: where two ways meet in the tallies,
// the compiler copies them once more.
pub fn tally(t: Tallies, named: CellWord) -> Tallies
    ensures { (n : ℕ) → n ≤ cell_room → named < 2 ^ n → result ≡ Tally.tallied_by n (bit_at named) t }
{
    let c = counting(t.total, named);
    let mut next = Tallies {
        total: c.total,
        ..t
    };
    let mut left = c.named;
    let mut i: u32 = 0;
    while left != 0 {
        let k = words::lowest(left);
        let at = (i + k) as usize;
        next.cells[at] = counted(next.cells[at]);
        left = left >> (k + 1);
        i = i + k + 1;
    }
    next
}
