// Runs stored sessions. Standard input lists them, one run to a row: `SIZE FILE FORM`.
//
// SIZE is `small` for a card of sixteen cells or `large` for one of thirty-two; the card is fresh
// and its store holds zeros. FORM is what the run prints:
//     plrun     what plrun prints, by its loop and over the bytes in memory (module `both`)
//     session   what each line prints, and then the wiring of the card
//     wiring    the wiring alone
//     survey    what depends on each connector at the end, and on places that are no connector
//     rests     what each tick prints, and whether the card is then at rest
//     tallies   what each line prints; lines that start with `#` ask for the tallies
//     explain   what plexplain writes; `asleep` with the cells that sleep
//     rows      the same as rows of JSON; `rows-asleep` with the cells that sleep
//     check     what plcheck writes of a transcript
// Each run starts with its row. Where it cannot be run, `?` and the reason follow.
#![tactic(auto)]

mod both; // a session by plrun's loop and in memory
mod checked; // what plcheck writes of a transcript
mod ending; // the card that a session leaves
mod explained; // what plexplain writes of a session
mod lines_of; // what each line prints
mod tallies; // sessions that ask for the tallies

ghost use Rattle.std.specs.Prelude.{◌≤◌, length};

use card::limits::{LARGE, SMALL};
use explain::line::Style;
use input::system::{STDOUT, Source, open_read};
use input::{BUFFER, Found, LINE, each_line};

#[derive(Clone, Copy)]
enum Form {
    Plrun,
    Session,
    Wiring,
    Survey,
    Rests,
    Tallies,
    Text(Style),
    Check,
}

// Why a row cannot be run.
#[derive(Clone, Copy)]
enum NotRun {
    Row,
    Size,
    Form,
    File,
    Plrun,
    Loop,
}

impl NotRun {
    fn text(self) -> &'static [u8] {
        match self {
            NotRun::Row => b"? a row is SIZE FILE FORM\n",
            NotRun::Size => b"? the size is not known\n",
            NotRun::Form => b"? the form is not known\n",
            NotRun::File => b"? the file cannot be read\n",
            NotRun::Plrun => b"? plrun's card has sixteen cells\n",
            NotRun::Loop => b"? plrun's loop cannot be run\n",
        }
    }
}

fn put(text: &[u8]) {
    io::write_all(STDOUT, text);
}

fn put_number(n: u64) {
    io::print_decimal(STDOUT, n);
}

// ---- a row

// The first word of a row, and what comes after the blank behind it.
fn first_word(row: &[u8]) -> Result<(&[u8], &[u8]), NotRun> {
    match row.iter().position(|b| *b == b' ') {
        Some(n) => Ok((&row[..n], &row[n + 1..])),
        None => Err(NotRun::Row),
    }
}

// The number of cells that a word says.
fn size_of(word: &[u8]) -> Result<u8, NotRun> {
    match word {
        b"small" => Ok(SMALL),
        b"large" => Ok(LARGE),
        _ => Err(NotRun::Size),
    }
}

// What plexplain writes.
fn text_form(rows: bool, asleep: bool) -> Form {
    Form::Text(Style { rows, asleep })
}

fn form_of(word: &[u8]) -> Result<Form, NotRun> {
    Ok(match word {
        b"plrun" => Form::Plrun,
        b"session" => Form::Session,
        b"wiring" => Form::Wiring,
        b"survey" => Form::Survey,
        b"rests" => Form::Rests,
        b"tallies" => Form::Tallies,
        b"explain" => text_form(false, false),
        b"asleep" => text_form(false, true),
        b"rows" => text_form(true, false),
        b"rows-asleep" => text_form(true, true),
        b"check" => Form::Check,
        _ => return Err(NotRun::Form),
    })
}

// The lines of an open file, and then what is printed of the card that they leave.
fn run_lines(file: &mut Source, size: u8, form: Form) {
    let card = lines_of::run(file, size, form);
    match form {
        Form::Session | Form::Wiring => ending::put_wiring(card),
        Form::Survey => ending::put_surveys(card),
        _ => {}
    }
}

// A run on an open file, which has this name.
fn run(
    rt: &HostRuntime,
    file: &mut Source,
    path: &[u8],
    size: u8,
    form: Form,
) -> Result<(), NotRun> {
    match form {
        Form::Plrun => both::run(rt, file, path, size)?,
        Form::Text(style) => explained::run(file, size, style),
        Form::Check => checked::run(file, size),
        _ => run_lines(file, size, form),
    }
    Ok(())
}

fn run_row(rt: &HostRuntime, row: &[u8]) -> Result<(), NotRun> {
    let (size, rest) = first_word(row)?;
    let (path, form) = first_word(rest)?;
    let size = size_of(size)?;
    let form = form_of(form)?;
    let file = open_read(rt, path).ok_or(NotRun::File)?;
    run(rt, &mut Source::Named(file), path, size, form)
}

// A row, and where it cannot be run the reason.
fn take_row(rt: &HostRuntime, row: &[u8]) {
    put(row);
    put(b"\n");
    if let Err(why) = run_row(rt, row) {
        put(why.text());
    }
}

// ---- the rows

fn main(rt: HostRuntime) {
    let mut block = [0u8; BUFFER];
    let mut row = [0u8; LINE];
    let mut rows = Source::Standard(rt.stdin());
    each_line(&mut rows, &mut block, &mut row, |found, line| {
        if found == Found::Line {
            take_row(&rt, line);
        }
        true
    });
}
