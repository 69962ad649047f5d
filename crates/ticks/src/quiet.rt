// Quiet ticks. While no cell is edited and every word is what it was in the last two ticks, all
// readers see one view, level slots read as they did, and a cell sleeps unless an edge slot of it
// is high all the same.
ghost use Rattle.std.specs.Prelude.{true, false, ◌≡◌, ◌^◌, ◌≤◌, ◌<◌, length};
ghost use Rattle.std.specs.List.{list_all};
ghost use Rattle.words.specs.Bits.{bit_at};
ghost use Rattle.card.specs.Address.{cell_room};
ghost use Rattle.ticks.specs.Rest.{steady, cell_rests, all_rest, is_quiet, slept_all};
ghost use Rattle.ticks.specs.Tick.{turned};

use crate::view::{Wires, quarters, sees};
use card::limits::{CELLS, EditedSet};
use cells::cell::{Cell, State};
use cells::reading::read_slots;
use cells::wake::{has_edges, stirred};

// Whether no word has changed in the last two ticks.
pub fn unchanged(w: Wires) -> bool
    ensures { result ≡ steady w }
{
    ((w.outputs2 == w.outputs) & (w.outputs3 == w.outputs))
        & ((w.levels2 == w.levels) & (w.levels3 == w.levels))
}

// Whether nothing stirs a cell under a view that does not change. Only a type with edge slots is
// looked at.
fn rests(cell: Cell, view: u64) -> bool
    ensures { result ≡ cell_rests (bit_at view) cell }
{
    if !has_edges(cell.kind) {
        return true;
    }
    let q = quarters(view, view);
    !stirred(cell.kind, State::from(cell), read_slots(&q, cell.slots))
}

// Whether nothing stirs some cells.
fn rest_among(cells: &[Cell], view: u64) -> bool
    ensures { result ≡ list_all (cell_rests (bit_at view)) cells.now }
{
    cells.iter().all(|&cell| rests(cell, view))
}

// Whether nothing stirs the first n cells.
pub fn all_rest(cells: [Cell; CELLS], view: u64, n: u8) -> bool
    requires { n ≤ cell_room }
    ensures value { result ≡ all_rest n (bit_at view) cells }
    ensures cells_len { length cells ≡ cell_room }
{
    rest_among(&cells[..n as usize], view)
}

// Whether a quick tick takes the fast path, in which it leaves every cell as it is. It may say no
// where a closer look would say yes.
pub fn is_quiet(cells: [Cell; CELLS], edited: EditedSet, w: Wires, n: u8) -> bool
    requires n_le_cell_room { n ≤ cell_room }
    requires outputs_bound { w.outputs < 2 ^ n }
    ensures value { result ≡ is_quiet n cells edited w }
    ensures w_value { result ≡ true → turned n false cells edited w ≡ slept_all cells w.outputs }
{
    if edited != 0 {
        return false;
    }
    if !unchanged(w) {
        return false;
    }
    all_rest(cells, sees(0, w.outputs, w.outputs, w.levels), n)
}
