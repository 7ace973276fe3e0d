// RULES 24.6, 24.10 and 24.12: a named log read to its end in stretches, each as long as a read makes it.
#![tactic(auto)]

ghost use Rattle.std.specs.Prelude.{◌+◌, ◌≤◌, ◌≡◌, [], IfOk, OnOk, length, take};
ghost use Rattle.records.specs.Records.{event_size};
ghost use Rattle.logs.specs.SoFar.{SoFar, OfSomeLog};
ghost use Rattle.logs.specs.Walking.{Ready};

use dedakhumi::dedakhumi_start;
use logs::play::Standing;
use logs::stretch::take_in;
use octets::sizes::{REPORT_SIZE, TABLE_SIZE};
use std::io::{ErrorKind, Read};
use std::rt::Files;
use std::{fs, io};
use tallies::counters::{COUNTERS, Counters};

// The bytes that are carried stay before what is read.
fn read_behind<F: Read>(file: &mut F, stretch: &mut [u8], kept: usize) -> io::Result<usize>
    requires { kept ≤ length stretch.old }
    ensures carried { take kept stretch.new ≡ take kept stretch.old }
    ensures within { IfOk result (λ more. kept + more ≤ length stretch.new) }
{
    file.read(&mut stretch[kept..])
}

// Nothing says that a log ends, so the turns are counted; a log that outlasts them is not read to its end.
fn tally_log<F: Read>(file: &mut F, standing: &mut Standing, stretch: &mut [u8]) -> io::Result<()>
    requires ready { Ready stretch.old 0 standing.old }
    requires so_far { SoFar [] standing.old.table standing.old.counts [] }
    ensures { OnOk result (OfSomeLog standing.new.counts) }
{
    let mut kept = 0;
    for _ in 0..u64::MAX {
        let more = read_behind(file, stretch, kept)?;
        if more == 0 {
            return Ok(());
        }
        kept = take_in(standing, stretch, kept + more);
    }
    Err(io::Error::from(ErrorKind::FileTooLarge))
}

fn tally_open<F: Read>(file: &mut F, stretch: &mut [u8]) -> io::Result<Counters>
    ensures { IfOk result OfSomeLog }
{
    let mut standing = Standing {
        table: [0; TABLE_SIZE],
        report: [0; REPORT_SIZE],
        counts: [0; COUNTERS],
    };
    dedakhumi_start(&mut standing.table, 0);
    tally_log(file, &mut standing, stretch)?;
    Ok(standing.counts)
}

// What the log adds up to, if it was read to its end. Into a stretch that what is carried could fill, nothing could be read. Only a name that is UTF-8 can be
// opened: std names a file by text.
pub fn tally_file<R: Files>(rt: &R, name: &[u8], stretch: &mut [u8]) -> io::Result<Counters>
    requires { event_size ≤ length stretch.old }
    ensures { IfOk result OfSomeLog }
{
    let Ok(path) = str::from_utf8(name) else {
        return Err(io::Error::from(ErrorKind::InvalidFilename));
    };
    tally_open(&mut fs::open(rt, path)?, stretch)
}
