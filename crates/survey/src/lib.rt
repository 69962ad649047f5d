// What depends on a line: the cells and connectors that a change at one connector can reach.
#![tactic(auto)]

ghost use Rattle.std.specs.Prelude.{◌≡◌, ◌≤◌, ◌<◌, get_or};
ghost use Rattle.words.specs.Bits.{bit_at, word_of};
ghost use Rattle.card.specs.Address.{cell_room, cells_for, connector_count, base_of};
ghost use Rattle.card.specs.Connectors.{connector_at};
ghost use Rattle.card.specs.Fresh.{no_cell};
ghost use Rattle.survey.specs.Rounds.{start_of};
ghost use Rattle.survey.specs.Survey.{reads_set, driven_from, Smallest, Survey};

use card::card::{Card, Connector, Connectors};
use card::connectors::connector_at;
use card::limits::{CELLS, CONNECTORS, CellWord, FIRST_CONNECTOR, Number, OPEN_DRAIN, PUSH_PULL};
use card::place::{cells_for, is_connector};
use cells::cell::Cell;
use cells::table::{Slots, used_of};
use ticks::view::sees;

// The number for a place that is no connector's.
const NO_PLACE: u8 = 5;

// What a survey gives: 0, or 5 for a place that is no connector's, and what depends on the
// connector, as a word with a bit for each cell and a word in the sample's order.
#[repr(C)]
#[derive(Clone, Copy, Debug, PartialEq, Eq)]
pub struct Surveyed {
    pub k: u8,
    pub cells: CellWord,
    pub connectors: u16,
}

// Two words of what depends on a line.
#[derive(Clone, Copy, Debug, PartialEq, Eq)]
struct Found {
    cells: CellWord,
    connectors: u16,
}

fn base(address: u8) -> u32
    ensures { (result ≡ base_of address) × (result < 64) }
{
    (address % 64) as u32
}

// Whether the base of an address is in a set of bases.
fn holds(set: u64, address: u8) -> bool
    ensures { result ≡ bit_at set (base_of address) }
{
    words::bit(set, base(address))
}

// Whether a cell has a used slot whose base is in the set.
#[tactic(auto, unfolding(crate::specs::Survey::reads_set))]
fn reads_set(cell: Cell, set: u64) -> bool
    ensures { result ≡ reads_set (bit_at set) cell }
{
    let [x, y, z, f] = cell.slots;
    let held = Slots {
        x: holds(set, x),
        y: holds(set, y),
        z: holds(set, z),
        f: holds(set, f),
    };
    held.within(used_of(cell.kind)).any()
}

// Whether a connector is an output whose source's base is in the set.
fn driven_from(c: Connector, set: u64) -> bool
    ensures { result ≡ driven_from (bit_at set) c }
{
    ((c.kind == OPEN_DRAIN) | (c.kind == PUSH_PULL)) & holds(set, c.source)
}

// The cells that read the set, of the first n.
pub fn readers(cells: [Cell; CELLS], set: u64, n: u8) -> CellWord
    requires { n ≤ cell_room }
    ensures { result ≡ word_of (λ i. reads_set (bit_at set) (get_or cells i no_cell)) n }
{
    let mut w: u64 = 0;
    for i in 0..n as u32 {
        let b = reads_set(cells[i as usize], set);
        w = words::pushed(w, i, b);
    }
    w as CellWord
}

// The output connectors that are driven from the set.
pub fn followers(connectors: Connectors, set: u64) -> u16
    ensures { result ≡ word_of (λ j. driven_from (bit_at set) (connector_at connectors j)) connector_count }
{
    let mut w: u64 = 0;
    for j in 0..CONNECTORS as u32 {
        let b = driven_from(connector_at(connectors, j), set);
        w = words::pushed(w, j, b);
    }
    w as u16
}

// What the set starts from: the connector alone, unless it is push-pull.
fn start(c: Connector, k: u32) -> u16
    requires { k < connector_count }
    ensures { result ≡ start_of c k }
{
    if c.kind == PUSH_PULL {
        return 0;
    }
    1 << k
}

// The set of connector k of sixteen on n cells. It is grown until nothing is added: every round but
// the last adds a cell or a connector.
fn reach(cells: [Cell; CELLS], connectors: Connectors, k: u32, n: u8) -> Found
    requires k_lt_connector_count { k < connector_count }
    requires n_le_cell_room { n ≤ cell_room }
    ensures { Smallest n cells connectors k result.cells result.connectors }
{
    let mut found: CellWord = 0;
    let mut lines = start(connector_at(connectors, k), k);
    loop {
        let set = sees(0, found, found, lines);
        let more = found | readers(cells, set, n);
        let further = lines | followers(connectors, set);
        if (more == found) & (further == lines) {
            return Found {
                cells: found,
                connectors: lines,
            };
        }
        found = more;
        lines = further;
    }
}

// What depends on the connector at a place: 33 to 48, BNC1-8 and TTL0-7. It goes by the settings
// alone, and any card has an answer.
pub fn dependents(card: Card, place: Number) -> Surveyed
    ensures { Survey (cells_for card.size) card place result }
{
    if !is_connector(place) {
        return Surveyed {
            k: NO_PLACE,
            cells: 0,
            connectors: 0,
        };
    }
    let n = cells_for(card.size);
    let r = reach(
        card.cells,
        card.connectors,
        (place - FIRST_CONNECTOR as Number) as u32,
        n,
    );
    Surveyed {
        k: 0,
        cells: r.cells,
        connectors: r.connectors,
    }
}
