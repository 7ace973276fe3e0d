// What the programs ask of the system: their arguments, and a line on standard error for a call of it that failed.
#![tactic(auto)]

ghost use Rattle.std.specs.Prelude.{◌≤◌, length, IfSome};

use std::env::FillError;
use std::io;
use std::io::{Cursor, Write};
use std::rt::Env;

// How many arguments the program was started with, its own name among them.
pub fn arg_count(rt: &impl Env) -> usize {
    (0..usize::MAX)
        .find(|&i| matches!(rt.arg(i, &mut []), Err(FillError::NotPresent)))
        .unwrap_or(usize::MAX)
}

// Puts argument i at the start of the buffer, and says how long it is; None where it is missing or longer than the buffer.
pub fn arg(rt: &impl Env, i: usize, buf: &mut [u8]) -> Option<usize>
    ensures { IfSome result (λ n. n ≤ length buf.new) }
{
    rt.arg(i, buf).ok()
}

// Says in a line on standard error what failed, and why. The system's own words are what stands before the number of the error.
pub fn fail(rt: &impl Eprint, what: &str, error: io::Error) {
    let mut out = Cursor::new([0u8; 512]);
    let _ = write!(out, "{error}");
    let end = (out.position() as usize).min(512);
    let text = out.into_inner();
    let said = str::from_utf8(&text[..end]).unwrap_or("");
    let why = said
        .split_once(" (os error ")
        .map_or(said, |(words, _)| words);
    let _ = eprintln!(rt; "{what}: {why}");
}
