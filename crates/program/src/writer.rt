// Text that a program writes, gathered in a buffer, and written to standard output a buffer at a
// time.
//
// A write that failed is reported once, with the system's words. After it nothing more is written,
// so that what came out is never without its middle, and the program can end.
ghost use Rattle.std.specs.Prelude.{◌≡◌, ◌≤◌, Result, Ok, IfOk, IsErr};
ghost use Rattle.program.specs.Writer.{room_length};

use input::system::{STDOUT, fail};

// `room_length`: the length of the buffer.
pub const ROOM: usize = 65536;

// A write that failed, and was reported.
#[derive(Clone, Copy, Debug, PartialEq, Eq)]
pub struct WriteFailed;

// Whether all that was given to write went.
pub type Written = Result<(), WriteFailed>;

// Gives a whole text to standard output, in one write.
pub fn write(text: &[u8]) -> Written {
    if io::write_all(STDOUT, text) {
        return Ok(());
    }
    fail(b"standard output");
    Err(WriteFailed)
}

// How many bytes wait at the front of the room, unless a write has failed. Where more are said to
// wait than there is room for, that counts as a write that failed.
#[derive(Clone, Copy)]
pub struct Writer {
    pub room: [u8; ROOM],
    pub waiting: Result<usize, WriteFailed>,
}

impl Writer {
    pub fn new() -> Writer
        ensures { result.waiting ≡ Ok 0 }
    {
        Writer {
            room: [0u8; ROOM],
            waiting: Ok(0),
        }
    }

    // What waits is given to write.
    pub fn flush(&mut self) -> Written
        ensures empty { IfOk self.new.waiting (λ used. used ≡ 0) }
        ensures within { IfOk self.new.waiting (λ used. used ≤ room_length) }
        ensures failed { IsErr self.old.waiting → IsErr result }
    {
        let used = self.waiting?;
        if ROOM < used {
            self.waiting = Err(WriteFailed);
            return Err(WriteFailed);
        }
        let written = write(&self.room[..used]);
        self.waiting = written.map(|_| 0);
        written
    }

    // A piece of text after what waits. Where it has no room there, what waits is given to write,
    // and the piece waits alone, or, where it is longer than the room, is written at once.
    pub fn put(&mut self, text: &[u8]) -> Written
        ensures failed { IsErr self.old.waiting → IsErr result }
        ensures within { IfOk self.new.waiting (λ used. used ≤ room_length) }
    {
        let used = self.waiting?;
        if used <= ROOM && text.len() <= ROOM - used {
            self.waiting = Ok(text::copy(&mut self.room, used, text));
            return Ok(());
        }
        self.flush()?;
        if ROOM < text.len() {
            let written = write(text);
            self.waiting = written.map(|_| 0);
            return written;
        }
        self.waiting = Ok(text::copy(&mut self.room, 0, text));
        Ok(())
    }

    pub fn put_byte(&mut self, b: u8) -> Written
        ensures failed { IsErr self.old.waiting → IsErr result }
        ensures within { IfOk self.new.waiting (λ used. used ≤ room_length) }
    {
        self.put(&[b])
    }

    // A number in decimal.
    pub fn put_number(&mut self, n: u64) -> Written
        ensures failed { IsErr self.old.waiting → IsErr result }
        ensures within { IfOk self.new.waiting (λ used. used ≤ room_length) }
    {
        let mut digits = [0u8; 20];
        let k = io::decimal(n, &mut digits);
        self.put(&digits[..k])
    }

    // A number between two pieces.
    pub fn put_with(&mut self, before: &[u8], n: u64, after: &[u8]) -> Written
        ensures failed { IsErr self.old.waiting → IsErr result }
        ensures within { IfOk self.new.waiting (λ used. used ≤ room_length) }
    {
        self.put(before)?;
        self.put_number(n)?;
        self.put(after)
    }
}
