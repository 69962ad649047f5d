// A saved record in another form, for cards that read only the old one of sixteen cells, and back.
#![tactic(auto)]

ghost use Rattle.std.specs.Prelude.{◌≡◌, ◌+◌, ◌≤◌, length, take, drop};
ghost use Rattle.card.specs.Address.{cell_count, cell_room};
ghost use Rattle.text.specs.Digits.{every};
ghost use Rattle.saved.specs.Record.{config_width, record_length};
ghost use Rattle.convert.specs.Convert.{cells_of, other_width, narrow_cell, is_blank, convert_number, convert_length};
ghost use Rattle.convert.specs.Convert.{converted_to};

use card::connectors::each_of;
use card::limits::{CELLS, LARGE, SMALL};
use card::valid::valid_settings;
use cells::cell::{Cell, Config};
use cells::table::CONSTANT;
use saved::record::{NARROW_LENGTH, NARROW_WIDTH, RECORD_LENGTH, WIDTH, encode_to};

// The largest configuration that the old form has room for.
const LARGEST_NARROW: Config = 65535;

// How many bytes the record of a large card has.
const LARGE_LENGTH: usize = 516;

// 0 or the number of the refusal, and the result's length, 0 where it is refused.
#[repr(C)]
#[derive(Clone, Copy)]
pub struct Converted {
    pub k: u8,
    pub len: usize,
}

// A form of records: the width of a configuration, and the length.
#[derive(Clone, Copy)]
struct Form {
    width: usize,
    len: usize,
}

// The number of cells of the card that the record is of.
fn cells_of(bytes: &[u8]) -> u8
    ensures value { result ≡ cells_of cell_count bytes.now }
    ensures lower_bound { cell_count ≤ result }
    ensures upper_bound { result ≤ cell_room }
{
    if bytes.len() == LARGE_LENGTH {
        LARGE
    } else {
        SMALL
    }
}

// The form of the result.
fn other_form(bytes: &[u8]) -> Form
    ensures width_value { result.width ≡ other_width cell_count bytes.now }
    ensures width_le_config_width { result.width ≤ config_width }
    ensures len_value { result.len ≡ record_length cell_count (other_width cell_count bytes.now) }
{
    if bytes.len() == NARROW_LENGTH {
        Form {
            width: WIDTH,
            len: RECORD_LENGTH,
        }
    } else {
        Form {
            width: NARROW_WIDTH,
            len: NARROW_LENGTH,
        }
    }
}

// Whether the configurations of the first n cells have room in the old form.
fn all_narrow(cells: [Cell; CELLS], n: usize) -> bool
    requires { n ≤ cell_room }
    ensures { result ≡ every narrow_cell (take n cells) }
{
    let mut ok = true;
    for i in 0..n {
        let cell = cells[i];
        ok = ok & (cell.config <= LARGEST_NARROW);
    }
    ok
}

// Whether the first n cells above those of a small card are constant 0.
fn all_blank(cells: [Cell; CELLS], n: usize) -> bool
    requires { cell_count + n ≤ cell_room }
    ensures { result ≡ every is_blank (take n (drop cell_count cells)) }
{
    let mut ok = true;
    for i in 0..n {
        let cell = cells[SMALL as usize + i];
        ok = ok & ((cell.kind == CONSTANT) & (cell.config == 0));
    }
    ok
}

// A record in its other form, constants above 1 made 1, to the front of a buffer; beyond it the
// buffer is as it was. That of a large card comes out as a small one's in the old form. k is 14 for
// a length of no form, else 1 for a buffer with no room for the result, else what a load of the
// record gives, else 17 where the old form has no room for a duration, else 18 where a cell above
// those of a small card is set or read: then by the rules of a small card the settings of the
// others are none that lines can set. Where k is not 0 the buffer stays, and len is 0.
pub fn convert(bytes: &[u8], buffer: &mut [u8]) -> Converted
    ensures k_value { result.k ≡ convert_number cell_count (length buffer.old) bytes.now }
    ensures len_value { result.len ≡ convert_length cell_count (length buffer.old) bytes.now }
    ensures buffer_after { buffer.new ≡ converted_to cell_count bytes.now buffer.old }
    ensures len_in_bounds { result.len ≤ length buffer.new }
{
    let given = bytes.len();
    if (given != NARROW_LENGTH) & ((given != RECORD_LENGTH) & (given != LARGE_LENGTH)) {
        return Converted { k: 14, len: 0 };
    }
    let to = other_form(bytes);
    if buffer.len() < to.len {
        return Converted { k: 1, len: 0 };
    }
    let n = cells_of(bytes);
    let loaded = saved::record::load(card::card::fresh_of(n), bytes);
    let k = loaded.k;
    if k != 0 {
        return Converted { k: k, len: 0 };
    }
    let card = loaded.card;
    let cells = card.cells;
    let row = card.connectors;
    if (to.width == NARROW_WIDTH) & !all_narrow(cells, n as usize) {
        return Converted { k: 17, len: 0 };
    }
    let connectors = each_of(row);
    if !all_blank(cells, (n - SMALL) as usize)
        | !valid_settings(card.trigger, cells, connectors, SMALL)
    {
        return Converted { k: 18, len: 0 };
    }
    encode_to(buffer, to.width, card.trigger, cells, connectors, SMALL);
    Converted { k: 0, len: to.len }
}
