// A transcript, line by line: what is entered, what must come, and what is said where something
// else comes.
use crate::facts::{Facts, Run, step};
use crate::line::{answer_in, put_why};
use crate::shape::{ends_blank, is_input, plain};
use input::{LINE, keep};
use phrases::page::{Page, Shown};
use session::{LONGEST_PRINT, refusal_of};

// A line that was entered: which of the lines that were read it is, and what it did.
#[derive(Clone, Copy)]
struct Entry {
    line: u32,
    facts: Facts,
}

// Between two lines of a transcript.
#[derive(Clone, Copy)]
pub struct Check {
    run: Run,
    // the lines that were read
    line: u32,
    // the line that was entered last: its first bytes, how many these are, and its answer
    kept: [u8; LINE],
    long: usize,
    answer: [u8; LONGEST_PRINT],
    // that line, where it waits for the answer that must come
    asked: Option<Entry>,
    // answers that came as they must, and those that did not
    agree: u32,
    differ: u32,
    // lines without `> ` that were refused; lines with it that have no answer below them, and the
    // first of these
    refused: u32,
    open: u32,
    first_open: Option<u32>,
    // the first lines that end in CR, in blanks, and without LF: these are left out or added
    returned: Option<u32>,
    blank: Option<u32>,
    unended: Option<u32>,
}

// ---- what is said

// Which tick a line is, ", tick 2", or which it comes after, ", after tick 2".
fn put_tick(page: &mut Page, before: u32, ticks: u32) {
    if before < ticks {
        page.say(format_args!(", tick {ticks}"));
    } else if 0 < ticks {
        page.say(format_args!(", after tick {ticks}"));
    }
}

// The facts of a line as if no hint had been given before it.
fn unhinted(f: Facts) -> Facts {
    let mut g = f;
    g.before.hinted = card::card::fresh_of(f.before.card.size);
    g
}

// A line that has a number, where there is one.
fn put_first(page: &mut Page, text: &str, line: Option<u32>, end: &str) {
    if let Some(n) = line {
        page.say(format_args!("{text}{n}{end}"));
    }
}

impl Check {
    // Before the first line, on a card of 16 or 32 cells.
    pub fn new(size: u8) -> Self {
        Check {
            run: crate::facts::start(size),
            line: 0,
            kept: [0; LINE],
            long: 0,
            answer: [0; LONGEST_PRINT],
            asked: None,
            agree: 0,
            differ: 0,
            refused: 0,
            open: 0,
            first_open: None,
            returned: None,
            blank: None,
            unended: None,
        }
    }

    // The line that was entered last did something else than it was to: "Line 9, tick 2:
    // T 0 0100 ffff Q", the answer that must come, where there is one, the answer that came, and
    // what the line did, in the words of plexplain, with all hints on its card.
    fn report(&self, page: &mut Page, entry: Entry, expected: Option<&[u8]>) {
        let f = entry.facts;
        let text = &self.kept[..self.long.min(LINE)];
        page.say(format_args!("Line {}", entry.line));
        put_tick(page, f.before.ticks, f.after.ticks);
        page.say(format_args!(": {}\n", Shown(text)));
        if let Some(answer) = expected {
            page.say(format_args!("    expected  {}\n", Shown(answer)));
        }
        page.say("    came      ");
        page.put(answer_in(&self.answer, &f));
        put_why(page, text, false, &unhinted(f));
    }

    // A line of the card.
    fn enter(&mut self, text: &[u8], store: &mut [u8]) -> Entry {
        let facts = step(self.run, text, store, &mut self.answer);
        self.run = facts.after;
        self.long = keep(&mut self.kept, text);
        Entry {
            line: self.line,
            facts,
        }
    }

    // A line of a wiring. Nothing is compared; the first that is refused is reported.
    fn take_plain(&mut self, text: &[u8], store: &mut [u8], page: &mut Page) {
        let entry = self.enter(text, store);
        if refusal_of(entry.facts.event) == 0 {
            return;
        }
        if self.refused == 0 {
            self.report(page, entry, None);
        }
        self.refused = self.refused.saturating_add(1);
    }

    // An input of a transcript, whose answer is below it.
    fn ask(&mut self, text: &[u8], store: &mut [u8]) {
        let entry = self.enter(text, store);
        self.asked = Some(entry);
    }

    // One that ends in CR, which is not there yet.
    fn ask_returned(&mut self, text: &[u8], store: &mut [u8]) {
        let mut line = [0; LINE];
        let n = keep(&mut line, text);
        if n < LINE {
            line[n] = b'\r';
            self.ask(&line[..n + 1], store);
        } else {
            self.ask(&line, store);
        }
    }

    // An input of a transcript: `<CR>` at its end means the byte CR; one that ends `<no LF>` is no
    // line, and has no answer.
    fn take_input(&mut self, text: &[u8], store: &mut [u8]) {
        if text.ends_with(b"<no LF>") {
            return;
        }
        match text.strip_suffix(b"<CR>") {
            Some(line) => self.ask_returned(line, store),
            None => self.ask(text, store),
        }
    }

    // The answer that must come, below its line. The first that is another one is reported.
    fn compare(&mut self, entry: Entry, expected: &[u8], page: &mut Page) {
        let came = answer_in(&self.answer, &entry.facts);
        if came.strip_suffix(b"\n") == Some(expected) {
            self.agree = self.agree.saturating_add(1);
            return;
        }
        if self.differ == 0 {
            self.report(page, entry, Some(expected));
        }
        self.differ = self.differ.saturating_add(1);
    }

    // An input of a transcript comes, or the end: one that waits for its answer does not get it.
    fn leave_open(&mut self) {
        if let Some(entry) = self.asked.take() {
            self.open = self.open.saturating_add(1);
            self.first_open = self.first_open.or(Some(entry.line));
        }
    }

    // A line without its line end, CR too. Blanks at its end are left out, but not those of an
    // input, which is entered as it is written.
    fn take_line(&mut self, text: &[u8], store: &mut [u8], page: &mut Page) {
        if is_input(text) {
            self.leave_open();
            return self.take_input(&text[text.len().min(2)..], store);
        }
        let line = plain(text);
        if line.is_empty() {
            return;
        }
        let blank = ends_blank(text).then_some(self.line);
        self.blank = self.blank.or(blank);
        match self.asked.take() {
            Some(entry) => self.compare(entry, line, page),
            None => self.take_plain(line, store, page),
        }
    }

    // The next line, without its LF. Of one that is longer the first bytes, as many as are kept of
    // a line that has not ended. The page has what is said of it.
    pub fn take(&mut self, text: &[u8], store: &mut [u8], page: &mut Page) {
        page.clear();
        self.line = self.line.saturating_add(1);
        match text.strip_suffix(b"\r") {
            Some(line) => {
                self.returned = self.returned.or(Some(self.line));
                self.take_line(line, store, page);
            }
            None => self.take_line(text, store, page),
        }
    }

    // The bytes after the last LF: a line all the same.
    pub fn take_last(&mut self, text: &[u8], store: &mut [u8], page: &mut Page) {
        page.clear();
        if !text.is_empty() {
            self.unended = Some(self.line.saturating_add(1));
            self.take(text, store, page);
        }
    }

    // What was mended, and the first line of it.
    fn put_mended(&self, page: &mut Page) {
        put_first(
            page,
            "Line ",
            self.returned,
            " ends in CR LF. The CR is left out, there and in all lines.\n",
        );
        put_first(
            page,
            "Line ",
            self.blank,
            " ends in a blank. Blanks at the end of lines are left out.\n",
        );
        put_first(
            page,
            "Line ",
            self.unended,
            " is the last and has no LF after it. It is taken all the same.\n",
        );
    }

    // What is said at the end: the page has it.
    pub fn end(&mut self, page: &mut Page) {
        page.clear();
        self.leave_open();
        self.put_mended(page);
        if self.refused != 0 {
            page.say(format_args!("Refused of the lines without >: {}.\n", self.refused));
        }
        if self.open != 0 {
            page.say(format_args!(
                "Lines with no answer below them, which were not compared: {}. ",
                self.open
            ));
        }
        put_first(page, "The first is line ", self.first_open, ".\n");
        page.say(format_args!("{} answers agree, {} differ\n", self.agree, self.differ));
    }
}
