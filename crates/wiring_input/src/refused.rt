// A line of a wiring that the card refuses, as it is reported on the error output.
use card::card::Card;
use card::context::context_of;
use grammar::grammar::parse_line;
use input::system::STDERR;
use phrases::page::{Page, Shown};
use phrases::refused::{put_refused, put_unloaded};
use session::Event;

// The rule that refused a line with this number, in words. The card is as it was before the line.
fn put_rule(page: &mut Page, text: &[u8], event: Event, card: Card) {
    match event {
        Event::Tick(_) => {}
        Event::Load(k) => put_unloaded(page, k),
        Event::Line(k) => {
            let x = context_of(card);
            put_refused(page, text, k, x, parse_line(text, card.size))
        }
    }
}

// A refused line: its number, itself, and the rule. The card is as it was before the line.
pub fn say_refused(number: u64, text: &[u8], event: Event, card: Card) {
    io::write_all(STDERR, b"line ");
    io::print_decimal(STDERR, number);
    let mut page = Page::new();
    page.say(format_args!(" was refused: {}\n", Shown(text)));
    put_rule(&mut page, text, event, card);
    io::write_all(STDERR, page.bytes());
}
