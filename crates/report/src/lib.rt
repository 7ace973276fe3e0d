// The ended tasks listed in their former age order, and the rest of the report zeroed.
#![tactic(auto)]

ghost use Rattle.std.specs.Prelude.{◌≡◌, ◌≤◌, ◌<◌, length, drop, replicate};
ghost use Rattle.octets.specs.Sizes.{tasks_at};
ghost use Rattle.rules.specs.Tasks.{places};
ghost use Rattle.records.specs.Tables.{report_bytes};
ghost use Rattle.steps.specs.Steps.{ends_of};
ghost use Rattle.steps.specs.Reports.{ListedAs, Listed};

use decide::fates::fate;
use octets::records::{get_tagged, put_record};
use octets::sizes::{ENDED_SIZE, Report, TASK_SIZE, TASKS_AT, Table};
use records::tasks::{ended_bytes, task_from};
use steps::ends_nobody;
use values::Sweep;

// Not by fill(0) (docs/DESIGN-PASS.md, 3): the speed; it stores the last byte apart, which takes 5 instructions an event more.
pub fn zero_rest(part: &mut [u8])
    ensures { part.new ≡ replicate (length part.old) 0 }
{
    part.fill_with(|| 0);
}

// One task: its ended record is put at place m of the report, if it ends.
fn list_one(report: &mut Report, m: usize, w: Sweep, r: [u8; TASK_SIZE]) -> usize
    requires { m < places }
    ensures { Listed w m r report.old report.new result }
{
    let t = task_from(r);
    match fate(w, t) {
        None => m,
        Some(status) => {
            put_record(report, ENDED_SIZE * m, ended_bytes(t.nexus, status, t.tag));
            m + 1
        }
    }
}

fn list_ends(t: &Table, n: usize, w: Sweep, report: &mut Report) -> usize
    requires { n ≤ places }
    ensures { ListedAs (ends_of w n (drop tasks_at t.now)) report.old report.new result }
{
    if ends_nobody(w) {
        return 0;
    }
    let mut m: usize = 0;
    for i in 0..n {
        let r = get_tagged(t, TASKS_AT + TASK_SIZE * i);
        m = list_one(report, m, w, r);
    }
    m
}

// How many ended.
pub fn write_report(t: &Table, n: usize, w: Sweep, report: &mut Report) -> usize
    requires { n ≤ places }
    ensures { (result ≡ length (ends_of w n (drop tasks_at t.now))) × (report.new ≡ report_bytes (ends_of w n (drop tasks_at t.now))) × (result ≤ places) }
{
    let m = list_ends(t, n, w, report);
    let at = ENDED_SIZE * m;
    zero_rest(&mut report[at..]);
    m
}
