// The wiring that an input holds, for programs that answer about it or pass it on.
//
// A wiring with a refused line is not the one that was written, so there is none, unless the user
// asks for it all the same. Each refused line is reported with the rule that refused it. An input
// of a form that no card takes is reported, and nothing more is read.
#![tactic(auto)]

pub mod refused; // how a refused line is reported

use card::card::Card;
use input::Found;
use input::system::STDERR;
use program::arguments::Arguments;
use program::form::{form_of, say_form};
use session::feed::{Buffers, Feed};
use session::refusal_of;

// The last line that a feed has given: whether it shows that the input is of a form that no card
// takes. Where the card refused it, that is reported.
fn is_foreign(feed: &Feed, buffers: &Buffers) -> bool {
    let text = feed.text(buffers);
    let report = feed.report;
    let number = report.lines;
    if let Some(form) = form_of(text, number) {
        say_form(form, number);
        return true;
    }
    let event = feed.event;
    if refusal_of(event) != 0 {
        refused::say_refused(number, text, event, feed.before);
    }
    false
}

// The wiring in the input of a program: the card that its lines leave, if it is the one that was
// written, or is taken all the same. Where it is none, that is reported.
pub fn wiring_from(given: Arguments) -> Option<Card> {
    let mut source = given.input;
    let mut buffers = Buffers::new();
    let mut feed = Feed::new(given.cells);
    let mut foreign = false;
    'lines: while feed.goes_on() && !foreign {
        feed.next(&mut source, &mut buffers);
        foreign = feed.reader.has_line() && is_foreign(&feed, &buffers);
    }
    let report = feed.report;
    program::report::say_rest(report.rest);
    if foreign || feed.reader.found == Found::Failure {
        return None;
    }
    if report.refused != 0 && !given.anyway {
        io::write_all(
            STDERR,
            b"A wiring with a refused line is not the one that was written, so nothing is answered. --anyway takes it all the same.\n",
        );
        return None;
    }
    Some(feed.card)
}
