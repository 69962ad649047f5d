// Prints the chart of the addresses: a row for each, which has the address, its base, inverted,
// edge and permitted.
#![tactic(auto)]

ghost use Rattle.std.specs.Prelude.{◌≡◌, ◌+◌, ◌≤◌, length};
ghost use Rattle.std.proofs.lemmas.List.Edits.{sets};
ghost use Rattle.card.specs.Address.{cell_count};
ghost use Rattle.plchart.specs.Rows.{field_text, row_text, chart_text, field_most, row_most, text_most};

use card::chart::{ADDRESSES, Entry, entry_of};
use card::limits::SMALL;

// The most bytes of a field, ten digits and what ends it, and of a row. All rows have room in this
// many.
const FIELD_MOST: usize = 11;

const ROW_MOST: usize = 5 * FIELD_MOST;

const TEXT_MOST: usize = ADDRESSES * ROW_MOST;

// A number and the byte that ends it; the result is the place after them.
fn put_field(out: &mut [u8; TEXT_MOST], at: usize, v: u32, mark: u8) -> usize
    requires { at + field_most ≤ text_most }
    ensures out_after { out.new ≡ sets out.old at (field_text v mark) }
    ensures value { result ≡ at + length (field_text v mark) }
    ensures upper_bound { result ≤ at + field_most }
{
    let end = text::put_decimal(out, at, v);
    out[end] = mark;
    end + 1
}

// The row of an address with this entry.
fn put_row(out: &mut [u8; TEXT_MOST], at: usize, a: u8, e: Entry) -> usize
    requires { at + row_most ≤ text_most }
    ensures out_after { out.new ≡ sets out.old at (row_text a e) }
    ensures value { result ≡ at + length (row_text a e) }
    ensures upper_bound { result ≤ at + row_most }
{
    let base = put_field(out, at, a as u32, b' ');
    let inverted = put_field(out, base, e.base as u32, b' ');
    let edge = put_field(out, inverted, e.inverted as u32, b' ');
    let permitted = put_field(out, edge, e.edge as u32, b' ');
    put_field(out, permitted, e.permitted as u32, b'\n')
}

// The rows of all addresses, and how many bytes they have.
fn put_chart(out: &mut [u8; TEXT_MOST]) -> usize
    ensures out_after { out.new ≡ sets out.old 0 (chart_text cell_count) }
    ensures value { result ≡ length (chart_text cell_count) }
    ensures upper_bound { result ≤ text_most }
{
    let mut at = 0;
    for a in 0..ADDRESSES {
        let a = a as u8;
        at = put_row(out, at, a, entry_of(a, SMALL));
    }
    at
}

fn print_chart() {
    let mut out = [0u8; TEXT_MOST];
    let n = put_chart(&mut out);
    let _ = program::writer::write(&out[..n]);
}

fn main(rt: HostRuntime) {
    let runs = program::arguments::read_none(
        &rt,
        b"plchart reads nothing, and prints the chart of the 256 addresses.

usage: plchart

Each row has an address, its base, and 0 or 1 for inverted, edge and permitted: `129 1 0 1 1` is the rise of
cell 1.
",
    );
    if runs {
        print_chart();
    }
}
