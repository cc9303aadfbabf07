// Writes the reports of the stored traces that its arguments name, one after the other. `NAME` is a file with one trace; `+NAME` is one
// with many, each behind its length in four bytes, low byte first; `=NAME` is such a file, and its reports are the detailed ones.
// The file `cases` has the single traces and their reports, to be read, and says where they come from. The others are generated, and
// their reports are the original's own.

#![tactic(auto)]

use std::env::{Env, FillError};
use std::fs::File;
use std::io;
use std::io::Write;
use std::rt::Files;

// What a file holds.
#[derive(Clone, Copy)]
enum Holds {
    One,
    Many { detail: bool },
}

// What stands before a name, and the name.
fn named(path: &[u8]) -> (Holds, &[u8]) {
    match path {
        [b'+', name @ ..] => (Holds::Many { detail: false }, name),
        [b'=', name @ ..] => (Holds::Many { detail: true }, name),
        _ => (Holds::One, path),
    }
}

// No stored trace is so long that the fourth byte of its length counts.
fn put_many<W: Write>(to: &mut W, s: &[u8], detail: bool) -> io::Result<()> {
    let mut left = s;
    while let Some((&[a, b, c, _], rest)) = left.split_first_chunk::<4>() {
        let n = u32::from_le_bytes([a, b, c, 0]) as usize;
        let (trace, next) = rest.split_at(n.min(rest.len()));
        trace_reporter::put_fresh(to, trace, detail)?;
        left = next;
    }
    Ok(())
}

// A name that is not text names no file.
fn replay<R: Files, W: Write>(files: &R, to: &mut W, path: &[u8]) -> io::Result<()> {
    let (what, name) = named(path);
    let Ok(name) = std::str::from_utf8(name) else {
        return to.write_all(b"missing\n");
    };
    let Ok(mut file) = File::open(files, name) else {
        return to.write_all(b"missing\n");
    };
    let mut trace = [0u8; 65537];
    let n = input::read_full(&mut file, &mut trace)?;
    match what {
        Holds::One => {
            trace_reporter::put_fresh(to, &trace[..n], false)?;
            Ok(())
        }
        Holds::Many { detail } => put_many(to, &trace[..n], detail),
    }
}

// A name that the memory does not hold is longer than any file's.
fn main(rt: HostRuntime) -> io::Result<()> {
    for i in 1..usize::MAX {
        let mut path = [0u8; 4096];
        match rt.arg(i, &mut path) {
            Ok(n) => replay(&rt, &mut rt.stdout(), &path[..n])?,
            Err(FillError::TooLong) => rt.stdout().write_all(b"missing\n")?,
            Err(FillError::NotPresent) => break,
        }
    }
    Ok(())
}
