// A run, line by line: each with its number, its answer, and below it what the answer means.
//
// plexplain writes of each line: its number, where it is a tick that ran `, tick ` and the number
// of that tick, `> `, and the line; then the answer, as plrun prints it; then sentences, each after
// four blanks or more. Ticks are counted as pldraw counts them: an idle one has no number. With
// rows it writes the same facts as one line of JSON.
use crate::accepted::{put_accepted, put_loaded};
use crate::facts::{Facts, Run, is_ran, step};
use crate::rows::put_row;
use card::context::context_of;
use grammar::grammar::Command;
use phrases::hints::put_hints;
use phrases::page::{Page, Shown};
use phrases::refused::{put_refused, put_unloaded};
use phrases::terms::Place;
use phrases::ticked::{Tick, put_tick};
use phrases::wiring::put_edited;
use session::{Event, LONGEST_PRINT, TickDone};

// How lines are explained: as rows of JSON or in sentences, and whether cells that sleep are named.
#[derive(Clone, Copy)]
pub struct Style {
    pub rows: bool,
    pub asleep: bool,
}

// The line after its number and, where it is a tick that ran, the tick's.
fn put_echo(page: &mut Page, text: &[u8], f: &Facts) {
    page.say(f.after.lines);
    if is_ran(f.event) {
        page.say(format_args!(", tick {}", f.after.ticks));
    }
    page.say(format_args!("> {}\n", Shown(text)));
}

// Whether a command is about what is at the pointer.
fn goes_to_pointer(command: Command) -> bool {
    matches!(
        command,
        Command::SetKind(_)
            | Command::SetConfig(_)
            | Command::SetState(_)
            | Command::SetSlots(_)
            | Command::GetKind
            | Command::GetConfig
            | Command::GetState
            | Command::GetSlot(_)
    )
}

// Whether a line goes to another place than the one that the last `M E=` named, which was refused.
pub fn is_astray(f: &Facts) -> bool {
    match f.parsed {
        Ok(command) => f.before.strayed & goes_to_pointer(command),
        _ => false,
    }
}

// A card line, which was refused with k where that is not 0.
fn put_line(page: &mut Page, text: &[u8], k: u8, f: &Facts) {
    let before = &f.before.card;
    let x = context_of(*before);
    if is_astray(f) {
        page.say(format_args!(
            "    The pointer did not move: this line goes to {}.\n",
            Place(x.pointer)
        ));
    }
    if k != 0 {
        return put_refused(page, text, k, x, f.parsed);
    }
    if let Ok(command) = f.parsed {
        put_accepted(page, command, before, &f.after.card);
        put_edited(page, f.edits, before.size);
    }
}

// A load of the store.
fn put_load(page: &mut Page, k: u8, f: &Facts) {
    if k != 0 {
        return put_unloaded(page, k);
    }
    let before = &f.before.card;
    put_loaded(page, before, &f.after.card);
    put_edited(page, f.edits, before.size);
}

// What is known of a tick.
pub fn tick_of(t: TickDone, f: &Facts) -> Tick {
    Tick {
        input: t.input,
        full: t.full,
        answer: t.answer,
        before: f.before.card,
        after: f.after.card,
    }
}

// A tick, and where it ran the hints that the run has not given.
fn put_ticked(page: &mut Page, asleep: bool, t: TickDone, f: &Facts) {
    put_tick(page, asleep, &tick_of(t, f));
    if t.answer.ran {
        put_hints(page, false, &f.before.hinted, &f.after.card);
    }
}

// What the answer to a line means.
pub fn put_why(page: &mut Page, text: &[u8], asleep: bool, f: &Facts) {
    match f.event {
        Event::Tick(t) => put_ticked(page, asleep, t, f),
        Event::Load(k) => put_load(page, k, f),
        Event::Line(k) => put_line(page, text, k, f),
    }
}

// The answer at the front of a buffer, with its LF.
pub fn answer_in<'a>(buffer: &'a [u8; LONGEST_PRINT], f: &Facts) -> &'a [u8] {
    &buffer[..f.len.min(LONGEST_PRINT)]
}

// One line of input, and all that is written of it: the page has that alone. The result is the run
// after it.
pub fn explain(run: Run, text: &[u8], store: &mut [u8], page: &mut Page, style: Style) -> Run {
    let mut buffer = [0; LONGEST_PRINT];
    let f = step(run, text, store, &mut buffer);
    let answer = answer_in(&buffer, &f);
    page.clear();
    if style.rows {
        put_row(page, text, answer, style.asleep, &f);
    } else {
        put_echo(page, text, &f);
        page.put(answer);
        put_why(page, text, style.asleep, &f);
    }
    f.after
}

// The bytes after the last LF of an input, which are no line, and which line they would be: the
// page has what is said of them.
pub fn put_unended(page: &mut Page, rows: bool, text: &[u8], line: u32) {
    page.clear();
    if text.is_empty() {
        return;
    }
    if rows {
        return crate::rows::put_unended(page, text, line);
    }
    let text = Shown(text);
    page.say(format_args!("    Line {line} has no LF after it, so it is not entered: {text}\n"));
}
