// The words that a program is started with: options, then the name of a file. With no name, or with
// `-`, it reads standard input. A word that is not understood is reported, never passed over.
//
// A page that runs a program (clients/web) has no words, no terminal and no files. So with no word
// at most whether there is a terminal is asked before standard input is read. Nothing is allocated:
// a word is copied to a buffer of its own.
ghost use Rattle.std.specs.Prelude.{◌≡◌, ◌<◌, ◌≤◌, IfSome};
ghost use Rattle.program.specs.Words.{whole_number, most_from};

use input::line_end;
use input::system::{STDERR, Source, fail, open_read};
use std::env::{Env, FillError};
use std::io::{IsTerminal, Read};

// The options. A program says which it takes.
#[derive(Clone, Copy, Debug, PartialEq, Eq)]
pub enum Switch {
    Cells,
    Anyway,
    From,
    Rows,
    Asleep,
}

// What is read; the number of cells, 16 or 32; the number of `--from`, 0 where it was not given;
// and whether each of the other options was given.
#[derive(Drop)]
pub struct Arguments {
    pub input: Source,
    pub cells: u8,
    pub from: u64,
    pub anyway: bool,
    pub rows: bool,
    pub asleep: bool,
}

// The words so far.
#[derive(Clone, Copy)]
struct Words {
    // the option whose number the next word is
    due: Option<Switch>,
    // the place of the file's name
    file: Option<usize>,
    cells: u8,
    from: u64,
    anyway: bool,
    rows: bool,
    asleep: bool,
    ghost small: { from < most_from },
}

// No further word is looked at, and the program does not run: its help was written, or a word was
// refused, which was said.
#[derive(Clone, Copy, Debug, PartialEq, Eq)]
struct Stopped;

fn say(text: &[u8]) {
    io::write_all(STDERR, text);
}

// A word that cannot be taken, why, and where to look.
fn refuse(word: &[u8], why: &[u8]) -> Stopped {
    say(word);
    say(why);
    say(b"; --help says what this program takes\n");
    Stopped
}

// Standard input. A person at a terminal reads what is expected, which is the first line of the
// help, and how to end it.
fn standard(rt: &HostRuntime, help: &[u8]) -> Source {
    let input = rt.stdin();
    if input.is_terminal() {
        say(&help[..line_end(help, 0, help.len())]);
        say(b"\nType its input here; Ctrl-D at the start of a line ends it. --help tells more.\n");
    }
    Source::Standard(input)
}

// A file, if it can be read. A folder opens as one and cannot be read, so a read of no bytes is
// tried.
fn named(rt: &HostRuntime, name: &[u8]) -> Option<Source> {
    if std::str::from_utf8(name).is_err() {
        say(name);
        say(b": this name is no UTF-8, and no file is opened by such a name\n");
        return None;
    }
    let Some(mut file) = open_read(rt, name) else {
        fail(name);
        return None;
    };
    if file.read(&mut []).is_err() {
        fail(name);
        return None;
    }
    Some(Source::Named(file))
}

// ---- a word

// Whether a word is an option and no file's name. `-` alone is standard input.
fn is_option(word: &[u8]) -> bool {
    1 < word.len() && word[0] == b'-'
}

fn option_of(word: &[u8]) -> Option<Switch> {
    match word {
        b"--cells" => Some(Switch::Cells),
        b"--anyway" => Some(Switch::Anyway),
        b"--from" => Some(Switch::From),
        b"--rows" => Some(Switch::Rows),
        b"--asleep" => Some(Switch::Asleep),
        _ => None,
    }
}

// The number that a whole word is: one to ten digits with no leading zero.
fn whole_number(word: &[u8]) -> Option<u64>
    ensures value { result ≡ whole_number word.now }
    ensures value_lt_most_from { IfSome result (λ n. n < most_from) }
{
    let n = text::number_at(word, 0);
    if n.next == word.len() { n.value } else { None }
}

impl Words {
    fn new() -> Words {
        Words {
            due: None,
            file: None,
            cells: 16,
            from: 0,
            anyway: false,
            rows: false,
            asleep: false,
        }
    }

    // An option that the program takes. Its number is due where it has one.
    fn switch(&mut self, switch: Switch) {
        match switch {
            Switch::Cells | Switch::From => self.due = Some(switch),
            Switch::Anyway => self.anyway = true,
            Switch::Rows => self.rows = true,
            Switch::Asleep => self.asleep = true,
        }
    }

    // An option, or a text that any program writes on demand. All programs have one version.
    fn option(&mut self, help: &[u8], word: &[u8], takes: &[Switch]) -> Result<(), Stopped> {
        match option_of(word) {
            Some(switch) if takes.contains(&switch) => {
                self.switch(switch);
                return Ok(());
            }
            _ => {}
        }
        match word {
            b"--help" | b"-h" => {
                let _ = crate::writer::write(help);
                Err(Stopped)
            }
            b"--version" => {
                let _ = crate::writer::write(b"14.2.0\n");
                Err(Stopped)
            }
            _ => Err(refuse(word, b": no such option")),
        }
    }

    // The number after `--cells`: a card has 16 cells or 32.
    fn cells(&mut self, word: &[u8]) -> Result<(), Stopped> {
        self.due = None;
        match word {
            b"32" => self.cells = 32,
            b"16" => self.cells = 16,
            _ => return Err(refuse(b"--cells", b" wants 16 or 32 after it")),
        }
        Ok(())
    }

    // The number after `--from`.
    fn from(&mut self, word: &[u8]) -> Result<(), Stopped> {
        self.due = None;
        let Some(from) = whole_number(word) else {
            return Err(refuse(b"--from", b" wants a number of one to ten digits after it"));
        };
        self.from = from;
        Ok(())
    }

    // The name of the file, at a place of the words.
    fn file(&mut self, word: &[u8], reads: bool, place: usize) -> Result<(), Stopped> {
        if !reads {
            return Err(refuse(word, b": this program reads nothing"));
        }
        if self.file.is_some() {
            return Err(refuse(word, b": one file is read, and another was named before"));
        }
        self.file = Some(place);
        Ok(())
    }

    // A word at a place.
    fn word(
        &mut self,
        help: &[u8],
        word: &[u8],
        takes: &[Switch],
        reads: bool,
        place: usize,
    ) -> Result<(), Stopped> {
        match self.due {
            Some(Switch::Cells) => self.cells(word),
            Some(_) => self.from(word),
            None if is_option(word) => self.option(help, word, takes),
            None => self.file(word, reads, place),
        }
    }

    // All words, up to one that stops.
    fn words(
        &mut self,
        rt: &HostRuntime,
        help: &[u8],
        takes: &[Switch],
        reads: bool,
    ) -> Result<(), Stopped> {
        for place in 1..count_words(rt) {
            let mut word = io::buffer();
            let Ok(len) = rt.arg(place, &mut word) else {
                fail(b"a word");
                return Err(Stopped);
            };
            self.word(help, &word[..len], takes, reads, place)?;
        }
        Ok(())
    }
}

// ---- all words

// How many words there are, with the program's own name at place 0, which a page does not have.
fn count_words(rt: &HostRuntime) -> usize {
    for place in 1..usize::MAX {
        if let Err(FillError::NotPresent) = rt.arg(place, &mut []) {
            return place;
        }
    }
    usize::MAX
}

// The words of a program that takes these options, and reads an input or does not.
fn all_words(
    rt: &HostRuntime,
    help: &[u8],
    takes: &[Switch],
    reads: bool,
) -> Result<Words, Stopped> {
    let mut w = Words::new();
    let stopped = w.words(rt, help, takes, reads);
    if w.due.is_some() {
        return Err(refuse(b"the last option", b" wants a number after it"));
    }
    stopped?;
    Ok(w)
}

// The file at a place of the words.
fn open_at(rt: &HostRuntime, help: &[u8], place: usize) -> Option<Source> {
    let mut name = io::buffer();
    let Ok(len) = rt.arg(place, &mut name) else {
        fail(b"a word");
        return None;
    };
    match &name[..len] {
        b"-" => Some(standard(rt, help)),
        name => named(rt, name),
    }
}

// The words of a program that takes these options and reads an input. There is nothing to do where
// the help was written, and where an input cannot be read, which was said.
pub fn read(rt: &HostRuntime, help: &[u8], takes: &[Switch]) -> Option<Arguments>
    ensures { IfSome result (λ a. a.from < most_from) }
{
    let w = all_words(rt, help, takes, true).ok()?;
    let input = match w.file {
        Some(place) => open_at(rt, help, place)?,
        None => standard(rt, help),
    };
    Some(Arguments {
        input: input,
        cells: w.cells,
        from: w.from,
        anyway: w.anyway,
        rows: w.rows,
        asleep: w.asleep,
    })
}

// The words of a program that reads nothing: whether it may run.
pub fn read_none(rt: &HostRuntime, help: &[u8]) -> bool {
    all_words(rt, help, &[], false).is_ok()
}
