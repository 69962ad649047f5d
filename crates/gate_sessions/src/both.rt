// A session as plrun runs it, twice: by plrun's loop, which reads and writes, and over the bytes as
// they are in memory. The loop writes to a file, so that the two can be compared; where they
// differ, a line says so. Plrun's card has sixteen cells.
ghost use Rattle.std.specs.Prelude.{◌≤◌, length};

use crate::{NotRun, put};
use card::limits::SMALL;
use input::read_all;
use input::system::{Source, open_read};
use std::os::fd::AsRawFd;

// No session is longer, and none prints more.
const MOST: usize = 131072;

// Plrun's loop over a named file, where both files can be opened.
fn run_loop(rt: &HostRuntime, path: &[u8]) -> Result<(), NotRun> {
    let file = open_read(rt, path).ok_or(NotRun::Loop)?;
    let Ok(output) = std::fs::create(rt, "wrote") else {
        return Err(NotRun::Loop);
    };
    session::run::run_from(&mut Source::Named(file), output.as_raw_fd());
    Ok(())
}

// How many bytes come of a file, up to its end or to a read that fails.
fn read_or_before(file: &mut Source, bytes: &mut [u8; MOST]) -> usize
    ensures { result ≤ length bytes.new }
{
    match read_all(file, bytes) {
        Ok(n) => n,
        Err(failed) => failed.after,
    }
}

// The bytes that the loop wrote, at the front of a buffer.
fn read_wrote(rt: &HostRuntime, bytes: &mut [u8; MOST]) -> usize
    ensures { result ≤ length bytes.new }
{
    let Some(file) = open_read(rt, b"wrote") else {
        return 0;
    };
    let mut wrote = Source::Named(file);
    read_or_before(&mut wrote, bytes)
}

// What the run over the bytes in memory did is what plrun wrote, and it took them all.
fn compare(session: &[u8], wrote: &[u8], output: &mut [u8]) {
    let over = session::run::run_over(session, output);
    let printed = over.printed;
    if over.taken != session.len() {
        put(b"Over lent bytes it stops elsewhere.\n");
        return;
    }
    if output.len() < printed {
        put(b"Over lent bytes it prints more than it is lent.\n");
        return;
    }
    if !check::same(&output[0..printed], wrote) {
        put(b"Over lent bytes it prints something else.\n");
    }
}

// The session of an open file, which has this name.
pub fn run(rt: &HostRuntime, file: &mut Source, path: &[u8], size: u8) -> Result<(), NotRun> {
    if size != SMALL {
        return Err(NotRun::Plrun);
    }
    run_loop(rt, path)?;
    let mut session = [0u8; MOST];
    let mut wrote = [0u8; MOST];
    let mut output = [0u8; MOST];
    let given = read_or_before(file, &mut session);
    let n = read_wrote(rt, &mut wrote);
    put(&wrote[..n]);
    compare(&session[..given], &wrote[..n], &mut output);
    Ok(())
}
