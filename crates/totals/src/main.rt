// RULES 24.6 to 24.13: adds up the logs of event records that it is named.
#![tactic(auto)]

ghost use Rattle.logs.specs.SoFar.{OfSomeLogs};

use blocks::{FIGURES_ROOM, put_all, put_log, put_unreadable};
use files::tally_file;
use host::{arg, arg_count, fail};
use io::large_buffer;
use std::rt::{Env, Files};
use tallies::counters::{COUNTERS, Counters};
use tallies::sum::add_log;

// With pages of 4 KiB Linux takes no longer argument.
const NAME_SIZE: usize = 131072;

const OUT_SIZE: usize = NAME_SIZE + 5 + FIGURES_ROOM;

// The logs together that were read so far, and room for the name of one, a stretch of it and its block.
#[derive(Drop)]
struct Totals {
    all: Counters,
    name: [u8; NAME_SIZE],
    stretch: [u8; 65536],
    out: [u8; OUT_SIZE],
}

impl Totals {
    // Only a log that was read to its end is added. An argument that is missing or too long counts as an empty name, which cannot be opened.
    fn total<R: Env + Files + Print>(&mut self, rt: &R, i: usize) -> std::io::Result<()>
        requires { OfSomeLogs self.old.all }
        ensures { OfSomeLogs self.new.all }
    {
        let n = arg(rt, i, &mut self.name).unwrap_or(0);
        let name = &self.name[..n];
        let tallied = tally_file(rt, name, &mut self.stretch);
        let end = match tallied {
            Ok(counts) => {
                add_log(&mut self.all, &counts);
                put_log(&mut self.out, name, &counts)
            }
            Err(_) => put_unreadable(&mut self.out, name),
        };
        rt.write_all(&self.out[..end])
    }

    // After a write that fails it stops.
    fn total_logs<R: Env + Files + Print>(&mut self, rt: &R) -> std::io::Result<()>
        requires { OfSomeLogs self.old.all }
        ensures { OfSomeLogs self.new.all }
    {
        for i in 1..arg_count(rt) {
            self.total(rt, i)?;
        }
        let end = put_all(&mut self.out, &self.all);
        rt.write_all(&self.out[..end])
    }
}

fn total_arguments<R: Env + Files + Print>(rt: &R) -> std::io::Result<()> {
    let mut totals = Totals {
        all: [0; COUNTERS],
        name: [0; NAME_SIZE],
        stretch: large_buffer(),
        out: [0; OUT_SIZE],
    };
    totals.total_logs(rt)
}

// The count has the program's own name in it.
fn main(rt: HostRuntime) {
    if arg_count(&rt) < 2 {
        let _ = eprintln!(rt; "totals: name the logs to add up: totals LOG...");
    } else if let Err(e) = total_arguments(&rt) {
        fail(&rt, "totals: standard output", e);
    }
}
