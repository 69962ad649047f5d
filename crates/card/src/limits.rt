// The limits of the card by name, in code as in definitions. They serve as array lengths too.

// How many cells and connectors there are, the first place of each, and the place after the last.
pub const CELLS: usize = 32;

pub const SMALL: u8 = 16;

pub const LARGE: u8 = 32;

pub const CONNECTORS: usize = 16;

pub const FIRST_CELL: u8 = 1;

pub const FIRST_CONNECTOR: u8 = 33;

pub const CONNECTORS_END: u8 = FIRST_CONNECTOR + CONNECTORS as u8;

// How many of the connectors are on the front, the word of those that are not, the backplane, and
// of those that are.
pub const FRONT: u16 = 8;

pub const BACKPLANE: u16 = 0xffff << FRONT;

pub const FRONT_WORD: u16 = 0xffff ^ BACKPLANE;

// A number as a line gives it: it may be too large for what it is to set. It has at most ten
// digits, which 32 bits do not hold.
pub type Number = u64;

// The largest address.
pub const LARGEST_ADDRESS: Number = 255;

// A word with a bit for each cell.
pub type CellWord = u32;

// A set of edited cells, a bit for each. It has 64 bits, so that a card is aligned to 8 bytes and
// copied by whole words.
pub type EditedSet = u64;

// The types of a connector.
pub const INPUT: u8 = 0;

pub const OPEN_DRAIN: u8 = 1;

pub const PUSH_PULL: u8 = 2;

// The largest clock code, and the one under which BNC1 brings the trigger.
pub const LARGEST_CLOCK: Number = 4;

pub const FRONT_TRIGGER: u8 = 4;

// The first address of the edges.
pub const EDGES: u8 = 128;
