// One task: whether it is eligible, its next state, and whether its state fits.
ghost use Rattle.std.specs.Prelude.{◌≡◌};
ghost use Rattle.rules.specs.Tasks.{is_head, is_plain, is_aca, is_enabled, enabled_if, blocked_if_enabled};
ghost use Rattle.rules.specs.Well.{settled_task, held_task};
ghost use Rattle.decide.specs.OlderTasks.{no_older, behind_by, eligible_by, fits_by};

use values::{Attribute, Task, TaskState};

// What older tasks there are: any at all, and any that is HEAD OF QUEUE or ORDERED.
#[derive(Clone, Copy, PartialEq, Eq)]
pub struct Older {
    pub any: bool,
    pub barrier: bool,
}

pub fn no_older() -> Older
    ensures { result ≡ no_older }
{
    Older {
        any: false,
        barrier: false,
    }
}

pub fn is_head(a: Attribute) -> bool
    ensures { result ≡ is_head a }
{
    a == Attribute::HeadOfQueue
}

pub fn is_plain(a: Attribute) -> bool
    ensures { result ≡ is_plain a }
{
    matches!(a, Attribute::Simple | Attribute::Ordered)
}

pub fn is_aca(a: Attribute) -> bool
    ensures { result ≡ is_aca a }
{
    a == Attribute::Aca
}

pub fn is_enabled(s: TaskState) -> bool
    ensures { result ≡ is_enabled s }
{
    s == TaskState::Enabled
}

// What is older than the next task, behind one of this attribute.
pub fn behind(a: Attribute, o: Older) -> Older
    ensures { result ≡ behind_by a o }
{
    Older {
        any: true,
        barrier: o.barrier | matches!(a, Attribute::HeadOfQueue | Attribute::Ordered),
    }
}

pub fn eligible(a: Attribute, o: Older) -> bool
    ensures { result ≡ eligible_by o a }
{
    match a {
        Attribute::Simple => !o.barrier,
        Attribute::HeadOfQueue => true,
        Attribute::Ordered => !o.any,
        Attribute::Aca => true,
    }
}

// The state of a task of this attribute once the set settles.
pub fn settled_state(a: Attribute, o: Older) -> TaskState
    ensures { result ≡ enabled_if (eligible_by o a) }
{
    if eligible(a, o) {
        TaskState::Enabled
    } else {
        TaskState::Dormant
    }
}

// The state of a task once an ACA begins.
pub fn blocked_state(s: TaskState) -> TaskState
    ensures { result ≡ blocked_if_enabled s }
{
    match s {
        TaskState::Dormant => TaskState::Dormant,
        TaskState::Enabled => TaskState::Blocked,
        TaskState::Blocked => TaskState::Blocked,
    }
}

fn fits_settled(may_run: bool, a: Attribute, s: TaskState) -> bool
    ensures { result ≡ settled_task may_run a s }
{
    if is_aca(a) {
        return false;
    }
    if may_run {
        s == TaskState::Enabled
    } else {
        s == TaskState::Dormant
    }
}

fn fits_held(youngest: bool, may_run: bool, faulted: bool, a: Attribute, s: TaskState) -> bool
    ensures { result ≡ held_task youngest may_run faulted a s }
{
    match a {
        Attribute::Aca => (s == TaskState::Enabled) & youngest & faulted,
        Attribute::HeadOfQueue => (s == TaskState::Blocked) & may_run,
        Attribute::Simple | Attribute::Ordered => {
            (s == TaskState::Dormant) | ((s == TaskState::Blocked) & may_run)
        }
    }
}

// Whether a task's state fits, with and without ACA.
pub fn fits(aca: Option<u8>, t: Task, o: Older, youngest: bool) -> bool
    ensures { result ≡ fits_by aca o t youngest }
{
    let may_run = eligible(t.attribute, o);
    match aca {
        None => fits_settled(may_run, t.attribute, t.state),
        Some(f) => fits_held(youngest, may_run, t.nexus == f, t.attribute, t.state),
    }
}
