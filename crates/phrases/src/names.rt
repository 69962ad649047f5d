// Names in one place: of cell types and of connectors. Programs for people and the manual's table
// use these names.
ghost use Rattle.std.specs.Prelude.{◌≤◌, length};

// Every name of a connector has this length.
pub const CONNECTOR_NAME: usize = 4;

// The name of a type. Programs that line names up go by the longest.
pub fn type_name(kind: u8) -> &'static str
    ensures { length result.now ≤ 22 }
{
    match kind {
        0 => "constant",
        1 => "D-flop",
        2 => "lookup of two",
        3 => "lookup of three",
        4 => "lookup of four",
        5 => "AND2",
        6 => "OR2",
        7 => "XOR2",
        8 => "retriggerable one-shot",
        9 => "retriggerable delay",
        10 => "AND4",
        11 => "OR4",
        12 => "synchronous D-flop",
        13 => "JK flip-flop",
        14 => "one-shot",
        15 => "delay",
        16 => "one-shot, two triggers",
        17 => "delay, two triggers",
        18 => "D-flop with two resets",
        19 => "counter while A and B",
        20 => "counter while A or B",
        21 => "counter, start to stop",
        22 => "counter, start at 0",
        _ => "no type of a cell",
    }
}

// Connector k, counted from 0: "BNC1" to "BNC8", then "TTL0" to "TTL7".
pub fn connector(k: u8) -> [u8; CONNECTOR_NAME] {
    if k < 8 {
        return [b'B', b'N', b'C', b'1' + k];
    }
    [b'T', b'T', b'L', b'0' + k % 8]
}
