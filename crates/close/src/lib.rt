// Kept records closed up in place, and vacated ones cleared.
#![tactic(auto)]

ghost use Rattle.std.specs.Prelude.{◌≡◌, ◌+◌, ◌-◌, ◌≤◌, drop};
ghost use Rattle.octets.specs.Sizes.{tasks_at};
ghost use Rattle.rules.specs.Tasks.{places};
ghost use Rattle.steps.specs.Steps.{gone_by, kept_count, vacated_bytes, closed_bytes};
ghost use Rattle.steps.specs.Closing.{KeptAs};

use decide::fates::fate;
use octets::records::{get_tagged, put_record};
use octets::sizes::{TASK_SIZE, TASKS_AT, Table};
use records::tasks::{task_from, unused_bytes};
use steps::{ends_nobody, is_end};
use values::Sweep;

fn gone(w: Sweep, r: [u8; TASK_SIZE]) -> bool
    ensures { result ≡ gone_by w r }
{
    is_end(fate(w, task_from(r)))
}

// Every record is put where the next kept one goes, and counts if it stays: one path, and nothing ahead is touched.
fn keep(t: &mut Table, n: usize, w: Sweep) -> usize
    requires { n ≤ places }
    ensures { KeptAs w n t.old t.new result }
{
    if ends_nobody(w) {
        return n;
    }
    let mut k: usize = 0;
    for i in 0..n {
        let r = get_tagged(t, TASKS_AT + TASK_SIZE * i);
        put_record(t, TASKS_AT + TASK_SIZE * k, r);
        k += usize::from(!gone(w, r));
    }
    k
}

pub fn vacate(t: &mut Table, from: usize, n: usize)
    requires { (n ≤ places) × (from ≤ n) }
    ensures { t.new ≡ vacated_bytes from (n - from) t.old }
{
    for i in from..n {
        put_record(t, TASKS_AT + TASK_SIZE * i, unused_bytes());
    }
}

// How many stay.
pub fn close_up(t: &mut Table, n: usize, w: Sweep) -> usize
    requires { n ≤ places }
    ensures { (result ≡ kept_count w n (drop tasks_at t.old)) × (t.new ≡ closed_bytes w n t.old) × (result ≤ n) }
{
    let k = keep(t, n, w);
    vacate(t, k, n);
    k
}
