// RULES 24: plays event records from standard input and writes a line for each.
#![tactic(auto)]

mod play;
mod streams;

use crate::play::play;
use crate::streams::read_events;
use dedakhumi::dedakhumi_start;
use host::{arg_count, fail};
use octets::sizes::{EVENT_SIZE, REPORT_SIZE, TABLE_SIZE};
use std::io;

// So many records are read at a time, and their lines written, each of at most 20 bytes.
const RECORDS: usize = 4096;

const EVENTS_SIZE: usize = EVENT_SIZE * RECORDS;

const LINES_SIZE: usize = 20 * RECORDS;

// Goes on until the input ends or fails, or a write fails, after which it makes no call. Only where the input ends or fails is the buffer not filled, so with one
// of whole records none is cut before that. Nothing says that the input ends, so the turns are counted.
fn play_input<R: Input + Print + Eprint>(rt: &R) -> io::Result<()> {
    let mut table = [0; TABLE_SIZE];
    let mut report = [0; REPORT_SIZE];
    let mut events = [0; EVENTS_SIZE];
    let mut lines = [0; LINES_SIZE];
    let mut input = rt.reader();
    dedakhumi_start(&mut table, 0);
    for _ in 0..u64::MAX {
        let n = read_events(rt, &mut input, &mut events);
        let end = play(&mut table, &mut report, &events[..n], &mut lines);
        rt.write_all(&lines[..end])?;
        if n < events.len() {
            break;
        }
    }
    Ok(())
}

// The count has the program's own name in it.
fn main(rt: HostRuntime) {
    if arg_count(&rt) > 1 {
        let _ = eprintln!(rt;
            "player: takes no argument; give the event records on standard input: player < FILE"
        );
    } else if let Err(e) = play_input(&rt) {
        fail(&rt, "player: standard output", e);
    }
}
