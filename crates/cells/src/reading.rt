// What a cell's slots read: an address is a bit of one of four words, a word for each quarter of
// the addresses.
ghost use Rattle.std.specs.Prelude.{◌≡◌, ◌<◌, ◌/◌, ◌%◌};
ghost use Rattle.cells.specs.Table.{masked};
ghost use Rattle.cells.specs.Reading.{read_from, slots_at};

use crate::table::Slots;

// How many words there are, and the words: what the addresses read, or a set of addresses.
pub const QUARTERS: usize = 4;

pub type Quarters = [u64; QUARTERS];

// What a cell is asked by: what the addresses read now, and which of them have changed since the
// last tick that ran.
#[derive(Clone, Copy, Debug, PartialEq, Eq)]
pub struct Seen {
    pub reads: Quarters,
    pub moved: Quarters,
}

// A quarter has the bases 0 to 63.
const BASES: u8 = 64;

fn quarter(address: u8) -> usize
    ensures { (result ≡ address / 64) × (result < 4) }
{
    (address / BASES) as usize
}

fn base(address: u8) -> u32
    ensures { (result ≡ address % 64) × (result < 64) }
{
    (address % BASES) as u32
}

// What an address reads.
#[tactic(auto, unfolding(crate::specs::Reading::read_from))]
pub fn read(q: &Quarters, address: u8) -> bool
    ensures { result ≡ read_from q.now address }
{
    words::bit(q[quarter(address)], base(address))
}

// What the four slots read that hold these addresses.
pub fn read_slots(q: &Quarters, slots: [u8; 4]) -> Slots
    ensures { result ≡ slots_at q.now slots }
{
    Slots {
        x: read(q, slots[0]),
        y: read(q, slots[1]),
        z: read(q, slots[2]),
        f: read(q, slots[3]),
    }
}

// What the slots of a set read. A slot outside it is not read, and counts as low.
#[inline(always)]
pub(crate) fn read_used(q: &Quarters, used: Slots, slots: [u8; 4]) -> Slots
    ensures { result ≡ masked used (slots_at q.now slots) }
{
    Slots {
        x: used.x && read(q, slots[0]),
        y: used.y && read(q, slots[1]),
        z: used.z && read(q, slots[2]),
        f: used.f && read(q, slots[3]),
    }
}
