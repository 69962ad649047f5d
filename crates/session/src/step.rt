// The next line of a feed: what it does to the card, and what is reported of it.
ghost use Rattle.std.specs.Prelude.{true, List, IsTrue, ◌≡◌, ℕ, ◌≤◌, ◌<◌, length, replicate};
ghost use Rattle.card.specs.Address.{cells_for};
ghost use Rattle.input.specs.Lines.{part, buffer_length};
ghost use Rattle.input.specs.Reading.{is_line};
ghost use Rattle.session.specs.Session.{longest_print};
ghost use Rattle.session.specs.Feed.{Given, Fed, FedFrom, store_length};

use crate::feed::{Buffers, Feed, STORE};
use crate::{Entered, Event, LONGEST_PRINT, refusal_of};
use card::card::Card;
use card::limits::LARGE;
use input::system::{Source, fail};
use input::{BUFFER, Found, LINE, Reader};
use saved::record::RECORD_LENGTH;

// A fresh card of 16 or 32 cells, before the first byte of an input, with a store of zeros.
fn start(cells: u8) -> Feed
    ensures { (block : List ℕ) → FedFrom (cells_for cells) result block (replicate store_length 0) }
{
    let card = card::card::fresh_of(cells);
    let event = Event::Line(0);
    let reader = Reader::new();
    let report = program::report::none();
    Feed {
        before: card,
        card: card,
        event: event,
        reader: reader,
        report: report,
    }
}

// A line to a card, with as much of the store as its records have.
fn entered(card: Card, text: &[u8], store: &mut [u8], out: &mut [u8]) -> Entered
    requires { longest_print ≤ length out.old }
    ensures { length store.old ≡ store_length → Given true card text.now store.old
        result.card result.event store.new }
{
    if card.size == LARGE {
        return crate::enter(card, text, store, out);
    }
    if store.len() < RECORD_LENGTH {
        return crate::enter(card, text, store, out);
    }
    crate::enter(card, text, &mut store[0..RECORD_LENGTH], out)
}

// A line that has ended.
fn taken(feed: Feed, r: Reader, text: &[u8], store: &mut [u8; STORE]) -> Feed
    requires { r.n ≤ buffer_length }
    ensures reader_value { (result.reader ≡ r) × (result.before ≡ feed.card) }
    ensures given { Given true feed.card text.now store.old
        result.card result.event store.new }
{
    let card = feed.card;
    let mut out = [0u8; LONGEST_PRINT];
    let done = entered(card, text, store, &mut out);
    let next = done.card;
    let event = done.event;
    let report = program::report::after(feed.report, text, refusal_of(event));
    Feed {
        before: card,
        card: next,
        event: event,
        reader: r,
        report: report,
    }
}

// Where no further line comes: what comes after the last LF is reported.
fn past(feed: Feed, r: Reader, text: &[u8]) -> Feed
    requires { r.n ≤ buffer_length }
    ensures reader_value { (result.reader ≡ r) × (result.before ≡ feed.card) }
    ensures card_value { (result.card ≡ feed.card) × (result.event ≡ Event.Line 0) }
{
    let card = feed.card;
    let event = Event::Line(0);
    let report = program::report::at_end(feed.report, text);
    Feed {
        before: card,
        card: card,
        event: event,
        reader: r,
        report: report,
    }
}

// The line that a reader has given, if it has given one.
fn given(feed: Feed, r: Reader, text: &[u8], store: &mut [u8; STORE]) -> Feed
    requires { r.n ≤ buffer_length }
    ensures reader_value { (result.reader ≡ r) × (result.before ≡ feed.card) }
    ensures given { Given (is_line r.found) feed.card text.now store.old
        result.card result.event store.new }
{
    match r.found {
        Found::Line => taken(feed, r, text, store),
        Found::End => past(feed, r, text),
        Found::Failure => {
            fail(b"the input");
            past(feed, r, text)
        }
    }
}

impl Buffers {
    pub fn new() -> Buffers
        ensures { result.store ≡ replicate store_length 0 }
    {
        Buffers {
            block: [0u8; BUFFER],
            line: [0u8; LINE],
            store: [0u8; STORE],
        }
    }
}

impl Feed {
    // A fresh card of 16 or 32 cells, before the first byte of an input, with a store of zeros.
    pub fn new(cells: u8) -> Feed
        ensures { (block : List ℕ) → FedFrom (cells_for cells) result block (replicate store_length 0) }
    {
        start(cells)
    }

    // Whether a further line may come.
    pub fn goes_on(&self) -> bool
        ensures { IsTrue result → (is_line self.now.reader.found ≡ true) × (0 < self.now.reader.left) }
    {
        self.reader.has_line() && self.reader.left > 0
    }

    // The line that was given last, or what follows the last LF.
    pub fn text<'a>(&self, buffers: &'a Buffers) -> &'a [u8]
        ensures { result.now ≡ part self.now.reader.start self.now.reader.end buffers.now.block }
    {
        self.reader.text(&buffers.block)
    }

    // The next line of an input. Where no further one comes, the reader has found none; a read that
    // failed is reported. The feed is what `new` or this function left, with the same input and
    // buffers.
    pub fn next(&mut self, input: &mut Source, buffers: &mut Buffers)
        requires { 0 < self.old.reader.left }
        ensures left_lt_left { self.new.reader.left < self.old.reader.left }
        ensures fed { Fed self.old self.new buffers.old.block buffers.old.store
            buffers.new.block buffers.new.store }
    {
        let mut r = self.reader;
        r.next_line(input, &mut buffers.block, &mut buffers.line);
        *self = given(*self, r, r.text(&buffers.block), &mut buffers.store);
    }
}
