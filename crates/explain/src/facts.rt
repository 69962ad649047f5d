// One line of input, entered once: what it did, as facts from which sentences and rows are made.
ghost use Rattle.std.specs.Prelude.{◌≡◌, ◌≤◌, length};
ghost use Rattle.card.specs.Address.{cells_for};
ghost use Rattle.session.specs.Session.{longest_print, entered, event_of, Enters};
ghost use Rattle.explain.specs.Facts.{answer_of};

use card::card::Card;
use card::change::{Change, apply};
use card::context::context_of;
use grammar::grammar::{Command, NoCommand, parse_line};
use lines::decision::decide_for;
use phrases::form::is_move;
use session::{Entered, Event};

// Between two lines: the card, the lines entered and the ticks that ran; the card as it was in the
// last of these, on which all hints have been given; and whether the last line that was to move the
// pointer was refused.
#[derive(Clone, Copy)]
pub struct Run {
    pub card: Card,
    pub hinted: Card,
    pub lines: u32,
    pub ticks: u32,
    pub strayed: bool,
}

// What a line did: the run before it and after it, the event, of a card line what it was read as
// and the cells that it edited, and how many bytes its answer has.
#[derive(Clone, Copy)]
pub struct Facts {
    pub before: Run,
    pub after: Run,
    pub event: Event,
    pub parsed: Result<Command, NoCommand>,
    pub edits: u64,
    pub len: usize,
}

// Before the first line, on a card of 16 or 32 cells.
pub fn start(size: u8) -> Run {
    let card = card::card::fresh_of(size);
    Run {
        card,
        hinted: card,
        lines: 0,
        ticks: 0,
        strayed: false,
    }
}

// Whether an event is a tick that ran.
pub fn is_ran(event: Event) -> bool {
    matches!(event, Event::Tick(t) if t.answer.ran)
}

// What a line is read as. Ticks and loads have no form of a card line.
fn parsed_as(event: Event, text: &[u8], size: u8) -> Result<Command, NoCommand> {
    match event {
        Event::Line(_) => parse_line(text, size),
        _ => Err(NoCommand::Malformed),
    }
}

// The cells that a change edits.
fn changes_of(card: Card, change: Change) -> u64 {
    let mut blank = card;
    blank.edited = 0;
    apply(blank, change).edited
}

// The cells that an accepted line or load edits. A refused line has no change.
fn edits_of(
    event: Event,
    before: Card,
    after: Card,
    p: Result<Command, NoCommand>,
    store: usize,
) -> u64 {
    match event {
        Event::Tick(_) => 0,
        Event::Load(k) => if k == 0 { after.edited } else { 0 },
        Event::Line(_) => match decide_for(context_of(before), store, p) {
            Ok(accepted) => changes_of(before, accepted.change),
            Err(_) => 0,
        },
    }
}

// Whether a command moves the pointer.
fn moves(p: Result<Command, NoCommand>) -> bool {
    matches!(p, Ok(Command::Move(_)))
}

// Whether the pointer is where the last line that was to move it did not want it.
fn strays(strayed: bool, event: Event, p: Result<Command, NoCommand>, text: &[u8]) -> bool {
    match event {
        Event::Tick(_) => strayed,
        Event::Load(k) => strayed & (k != 0),
        Event::Line(k) => {
            if k == 0 {
                return strayed & !moves(p);
            }
            strayed | is_move(text)
        }
    }
}

// The run after a line that left a card.
fn run_after(run: Run, next: Card, ran: bool, strayed: bool) -> Run
    ensures { result.card ≡ next }
{
    let mut after = run;
    after.card = next;
    after.strayed = strayed;
    // a count that has reached the largest number stays there
    after.lines = run.lines.saturating_add(1);
    if ran {
        after.hinted = next;
        after.ticks = run.ticks.saturating_add(1);
    }
    after
}

// What a line did that was entered so, with so many bytes of store.
fn facts_of(run: Run, text: &[u8], done: Entered, room: usize) -> Facts
    ensures card_value { result.after.card ≡ done.card }
    ensures event_value { result.event ≡ done.event }
    ensures len_value { result.len ≡ done.len }
{
    let card = run.card;
    let next = done.card;
    let event = done.event;
    let parsed = parsed_as(event, text, card.size);
    let edits = edits_of(event, card, next, parsed, room);
    let strayed = strays(run.strayed, event, parsed, text);
    let after = run_after(run, next, is_ran(event), strayed);
    Facts {
        before: run,
        after,
        event,
        parsed,
        edits,
        len: done.len,
    }
}

// One line of input, without its LF. The card and the store after it, its event and its answer are
// those of `session::enter`, and so of plrun. The answer goes to the front of a buffer that has
// room for the longest.
pub fn step(run: Run, text: &[u8], store: &mut [u8], answer: &mut [u8]) -> Facts
    requires { longest_print ≤ length answer.old }
    ensures { Enters (entered (cells_for run.card.size) run.card text.now store.old)
        (event_of (cells_for run.card.size) run.card text.now store.old)
        (answer_of result) store.new answer.old answer.new }
{
    let room = store.len();
    let card = run.card;
    let done = session::enter(card, text, store, answer);
    facts_of(run, text, done, room)
}
