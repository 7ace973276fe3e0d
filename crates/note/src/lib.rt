// Who is told: the nexus records after a notice.
#![tactic(auto)]

ghost use Rattle.std.specs.Prelude.{◌≡◌, ◌≤◌, drop};
ghost use Rattle.laws.specs.Lists.{any};
ghost use Rattle.octets.specs.Sizes.{tasks_at};
ghost use Rattle.rules.specs.Tasks.{places};
ghost use Rattle.rules.specs.Tasks.{of_nexus};
ghost use Rattle.steps.specs.Steps.{losers, noted_one, noted_bytes};

use decide::fates::{fate, of_nexus};
use decide::pending::{
    after_cleared, after_hard_reset, after_nexus_loss, after_power_on, after_unit_reset,
    without_bit,
};
use octets::records::get_tagged;
use octets::sizes::{NEXUS_SIZE, PENDINGS_AT, TASK_SIZE, TASKS_AT, Table};
use records::nexus::{pending_from, pending_number};
use records::tasks::task_from;
use steps::is_end;
use values::{NEXUSES, Notice, Pending, Sweep};

// Whether nexus i loses a task by the sweep.
// Kept (docs/DESIGN-PASS.md, 3): the speed; any takes 4 instructions an event more at 3 tasks, and as_chunks was slower by a seventh in an event that tells 64.
fn loses(t: &Table, n: usize, w: Sweep, i: u8) -> bool
    requires { n ≤ places }
    ensures { result ≡ any (of_nexus i) (losers w n (drop tasks_at t.now)) }
{
    for j in 0..n {
        let k = task_from(get_tagged(t, TASKS_AT + TASK_SIZE * j));
        if is_end(fate(w, k)) & of_nexus(i, k) {
            return true;
        }
    }
    false
}

fn noted_one(k: Notice, i: u8, lost: bool, p: Pending) -> Pending
    ensures { result ≡ noted_one k i lost p }
{
    match k {
        Notice::Quiet => p,
        Notice::Reported(n, b) => if i == n { without_bit(b, p) } else { p },
        Notice::OthersLost(n) => if i != n && lost { after_cleared(p) } else { p },
        Notice::ReportedAndOthersLost(n, b) => if i == n {
            without_bit(b, p)
        } else if lost {
            after_cleared(p)
        } else {
            p
        },
        Notice::NexusLost(n) => if i == n { after_nexus_loss(p) } else { p },
        Notice::UnitWasReset => after_unit_reset(p),
        Notice::HardWasReset => after_hard_reset(p),
        Notice::PowerCameOn => after_power_on(),
    }
}

// The tasks are still those from before the sweep.
pub fn note(t: &mut Table, n: usize, w: Sweep, k: Notice)
    requires { n ≤ places }
    ensures { t.new ≡ noted_bytes k (losers w n (drop tasks_at t.old)) t.old }
{
    for i in 0..NEXUSES {
        let lost = loses(t, n, w, i as u8);
        let p = pending_from(t[PENDINGS_AT + NEXUS_SIZE * i]);
        t[PENDINGS_AT + NEXUS_SIZE * i] = pending_number(noted_one(k, i as u8, lost, p));
    }
}
