// Prints three tables, each under a heading: the cell types, the presets, and what loads and
// conversions of stored records give.
//
// The stored output was checked against document 01's tables by hand, and the rows of records
// against records that were written out from its tables.
#![tactic(auto)]

mod chart; // the cell types
mod loads; // loads and conversions of records
mod presets; // the presets

use input::system::STDOUT;

fn put(text: &[u8]) {
    io::write_all(STDOUT, text);
}

fn put_byte(b: u8) {
    put(&[b]);
}

fn put_number(n: u64) {
    io::print_decimal(STDOUT, n);
}

// A number and a blank.
fn put_field(n: u64) {
    put_number(n);
    put_byte(b' ');
}

fn main(rt: HostRuntime) {
    put(b"cell types\n");
    chart::put_table();
    put(b"presets\n");
    presets::put_table();
    put(b"records\n");
    loads::put_table(&rt);
}
