// A trace: what the ticks of a run showed, one after the other, for programs that draw waves.
//
// `next` goes on to the next tick that ran, by the lines of an input (`session::feed`), and
// `shown_in` is what it showed. `notes` is what a picture says of lines that it does not show.
#![tactic(auto)]

pub mod notes; // what a picture says of lines that it does not show

ghost use Rattle.std.specs.Prelude.{◌≡◌};
ghost use Rattle.trace.specs.Shows;
ghost use Rattle.trace.specs.Shows.{shown_in};

use card::card::Card;
use input::system::Source;
use session::feed::{Buffers, Feed};
use session::{Event, TickDone};

// What a tick showed: itself, with the levels that the card read in it, BNC1 first.
#[derive(Clone, Copy)]
pub struct Shown {
    pub tick: TickDone,
    pub levels: u16,
}

// What a line showed that left this card, if it was a tick.
fn shown_in(event: Event, card: Card) -> Option<Shown>
    ensures { result ≡ shown_in event card }
{
    match event {
        Event::Tick(t) => {
            let m = card.memory;
            Some(Shown {
                tick: t,
                levels: m.levels,
            })
        }
        Event::Load(_) => None,
        Event::Line(_) => None,
    }
}

// The levels, what the card drove, and the outputs of its cells in one word, the levels lowest: a
// bit for each wave of a picture.
pub fn packed(s: Shown) -> u64
    ensures { result ≡ Shows.packed s }
{
    let t = s.tick;
    let a = t.answer;
    let driven = (a.driven as u64) << 16;
    let cells = (a.cells as u64) << 32;
    s.levels as u64 + driven + cells
}

// What the next tick showed that ran; none did up to the end of the input. The feed is what
// `Feed::new` or this function left, with the same input and buffers.
pub fn next(feed: &mut Feed, input: &mut Source, buffers: &mut Buffers) -> Option<Shown> {
    'lines: while feed.goes_on() {
        feed.next(input, buffers);
        match shown_in(feed.event, feed.card) {
            Some(shown) if shown.tick.answer.ran => return Some(shown),
            _ => {}
        }
    }
    None
}
