// RULES 4.3: one task's fate under a sweep: the status by which it ends, where it does not stay.
ghost use Rattle.std.specs.Prelude.{◌≡◌};
ghost use Rattle.rules.specs.Tasks.{of_nexus, same};
ghost use Rattle.rules.specs.Rulings.{aborted_by, fate_by_qerr, fate_of};

use crate::states::is_aca;
use values::{CHECK_CONDITION, NO_STATUS, Policy, Qerr, Sweep, TASK_ABORTED, Tag, Task};

pub fn of_nexus(n: u8, t: Task) -> bool
    ensures { result ≡ of_nexus n t }
{
    t.nexus == n
}

pub fn same_task(n: u8, g: Tag, t: Task) -> bool
    ensures { result ≡ same n g t }
{
    (t.nexus == n) & (t.tag == g)
}

fn aborted_by(p: Policy, n: u8, t: Task) -> Option<u8>
    ensures { result ≡ aborted_by p n t }
{
    Some(if !of_nexus(n, t) & p.tas {
        TASK_ABORTED
    } else {
        NO_STATUS
    })
}

fn fate_by_qerr(p: Policy, n: u8, t: Task) -> Option<u8>
    ensures { result ≡ fate_by_qerr p.qerr p n t }
{
    match p.qerr {
        Qerr::EndNone => None,
        Qerr::EndAll => aborted_by(p, n, t),
        Qerr::EndNexus => of_nexus(n, t).then_some(NO_STATUS),
    }
}

pub fn fate(w: Sweep, t: Task) -> Option<u8>
    ensures { result ≡ fate_of w t }
{
    match w {
        Sweep::Nobody => None,
        Sweep::OneTask(n, g, status) => same_task(n, g, t).then_some(status),
        Sweep::NexusTasks(n) => of_nexus(n, t).then_some(NO_STATUS),
        Sweep::AcaTask => is_aca(t.attribute).then_some(NO_STATUS),
        Sweep::AllTasks => Some(NO_STATUS),
        Sweep::ClearedBy(n, p) => aborted_by(p, n, t),
        Sweep::FailedTask(n, g, p) => if same_task(n, g, t) {
            Some(CHECK_CONDITION)
        } else {
            fate_by_qerr(p, n, t)
        },
    }
}
