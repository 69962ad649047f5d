// What a tick is made of: what comes in with it, the words that its readers see, what a reader sees
// at each base, as a word with a bit for each base, and the words that addresses are read from.
ghost use Rattle.std.specs.Prelude.{◌≡◌, ℕ, ◌^◌, ◌≤◌, ◌<◌};
ghost use Rattle.words.specs.Bits.{bit_at, word_of};
ghost use Rattle.card.specs.Address.{cell_room};
ghost use Rattle.ticks.specs.Reading.{view};
ghost use Rattle.ticks.specs.Words.{ReadsAs, MovesAs, Differ, Fits};
ghost use Rattle.ticks.specs.Tick.{sees_now, saw_last, saw_earlier, wires_of};

use card::card::Memory;
use card::limits::CellWord;
use cells::reading::{Quarters, Seen};

// What comes in with a tick: the code of its clock, the word sampled at the connectors, and which
// of them have something attached.
#[repr(C)]
#[derive(Clone, Copy, Debug, PartialEq, Eq)]
pub struct Input {
    pub code: u8,
    pub sample: u16,
    pub attached: u16,
}

// What the readers of a tick see besides its own outputs: the levels of this tick, of the last one
// that ran (2) and of the one before (3), and the cell words of the last three ticks that ran.
#[derive(Clone, Copy, Debug, PartialEq, Eq)]
pub struct Wires {
    pub levels: u16,
    pub levels2: u16,
    pub levels3: u16,
    pub outputs: CellWord,
    pub outputs2: CellWord,
    pub outputs3: CellWord,
}

// What the readers of the tick see.
pub fn wires_of(m: Memory, levels: u16) -> Wires
    ensures { result ≡ wires_of m levels }
{
    Wires {
        levels,
        levels2: m.levels,
        levels3: m.levels2,
        outputs: m.outputs,
        outputs2: m.outputs2,
        outputs3: m.outputs3,
    }
}

// The view of a reader in position i: of the cells below i the bits of `below`, of the others those
// of `others`.
pub fn sees(i: u32, below: CellWord, others: CellWord, levels: u16) -> u64
    requires { i < 64 }
    ensures { (n : ℕ) → n ≤ cell_room → below < 2 ^ n → others < 2 ^ n
        → result ≡ word_of (view n i below others levels) 64 }
{
    let mask = (1 << i) - 1;
    let outside = others as u64;
    let cells = outside ^ ((below as u64 ^ outside) & mask);
    ((levels as u64) << 33) | (cells << 1)
}

// All bits.
pub const ALL: u64 = 0xffff_ffff_ffff_ffff;

// The words that addresses are read from, one for each quarter of them: level, inverse, rose, fell.
// In the last one base 0 is high, for 192.
pub(crate) fn quarters(now: u64, before: u64) -> Quarters
    ensures { ReadsAs result (bit_at now) (bit_at before) }
{
    let low = now ^ ALL;
    [now, low, now & (before ^ ALL), (low & before) | 1]
}

// The addresses whose readings differ between two sets of words.
fn differing(a: Quarters, b: Quarters) -> Quarters
    ensures { Differ result a b }
{
    [a[0] ^ b[0], a[1] ^ b[1], a[2] ^ b[2], a[3] ^ b[3]]
}

// What a reader in position i reads in this tick, below which this tick's outputs are known.
pub fn words_now(i: u32, below: CellWord, w: Wires) -> Quarters
    requires { i < 64 }
    ensures { (n : ℕ) → n ≤ cell_room → below < 2 ^ n → Fits n w
        → ReadsAs result (sees_now n i w below) (saw_last n i w) }
{
    let now = sees(i, below, w.outputs, w.levels);
    let before = sees(i, w.outputs, w.outputs2, w.levels2);
    quarters(now, before)
}

// What it read in the last tick that ran.
pub fn words_last(i: u32, w: Wires) -> Quarters
    requires { i < 64 }
    ensures { (n : ℕ) → n ≤ cell_room → Fits n w → ReadsAs result (saw_last n i w) (saw_earlier n i w) }
{
    let last = sees(i, w.outputs, w.outputs2, w.levels2);
    let earlier = sees(i, w.outputs2, w.outputs3, w.levels3);
    quarters(last, earlier)
}

// What a cell in position i is asked by: what it reads, and what has changed since the last tick
// that ran.
pub(crate) fn seen_by(i: u32, below: CellWord, w: Wires) -> Seen
    requires { i < 64 }
    ensures reads { (n : ℕ) → n ≤ cell_room → below < 2 ^ n → Fits n w
        → ReadsAs result.reads (sees_now n i w below) (saw_last n i w) }
    ensures moved { (n : ℕ) → n ≤ cell_room → below < 2 ^ n → Fits n w
        → MovesAs result.moved (sees_now n i w below) (saw_last n i w) (saw_earlier n i w) }
{
    let reads = words_now(i, below, w);
    Seen {
        reads,
        moved: differing(reads, words_last(i, w)),
    }
}
