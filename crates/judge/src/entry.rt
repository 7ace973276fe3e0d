// RULES 5: entry of a command, the checks in their order.
ghost use Rattle.std.specs.Prelude.{◌≡◌, cond};
ghost use Rattle.rules.specs.Rulings.{also_by_qerr};
ghost use Rattle.rules.specs.Rules.{ended_with, failing, new_task, accepting};
ghost use Rattle.judge.specs.LastChecks.{last_checks, checks_past_aca};

use decide::pending::sense_for;
use parts::{
    asks_aca, attribute_of, bad_attribute, bit_if, held_off, held_status, is_full, tell,
    tells_others,
};
use values::{
    Answer, Bit, CHECK_CONDITION, Change, Entry, Header, Notice, Pending, Policy, Qerr, Ruling,
    Sense, Sweep, TASK_SET_FULL, Task, TaskState,
};

fn sense(key: u8, code: u8, qualifier: u8) -> Sense
    ensures { result ≡ Rattle.rules.specs.Rules.sense key code qualifier }
{
    Sense {
        key,
        code,
        qualifier,
    }
}

fn ended_with(status: u8) -> Answer
    ensures { result ≡ ended_with status }
{
    Answer::EndedAtEntry(status, sense(0, 0, 0))
}

fn by_qerr_if(applies: bool, p: Policy, n: u8, w: Sweep) -> Sweep
    ensures { result ≡ cond applies (also_by_qerr p.qerr p n w) w }
{
    match p.qerr {
        Qerr::EndAll if applies => Sweep::ClearedBy(n, p),
        Qerr::EndNexus if applies => Sweep::NexusTasks(n),
        _ => w,
    }
}

// What checks 1, 3 and 4 do to the set. Each writes its answer itself: by a function an event takes some 30 instructions more at 3 tasks.
fn failed(h: Header, c: Entry, w: Sweep, top: Option<Bit>) -> Change
    ensures { result ≡ failing h.aca h c w top }
{
    let applies = h.aca.is_none();
    let naca = c.naca;
    Change {
        sweep: by_qerr_if(applies, h.policy, c.nexus, w),
        joins: None,
        header: h.with_aca(if applies & naca { Some(c.nexus) } else { h.aca }),
        notice: tell(
            c.nexus,
            top,
            applies & tells_others(h.policy.qerr, h.policy.tas),
        ),
    }
}

#[tactic(auto, unfolding(rules::specs::Rules::new_task))]
fn new_task(c: Entry) -> Task
    ensures { result ≡ new_task c }
{
    Task {
        nexus: c.nexus,
        attribute: attribute_of(c.asked),
        state: TaskState::Enabled,
        naca: c.naca,
        tag: c.tag,
    }
}

fn accepted(h: Header, c: Entry) -> Change
    ensures { result ≡ accepting h c }
{
    Change {
        sweep: Sweep::Nobody,
        joins: Some(new_task(c)),
        header: h,
        notice: Notice::Quiet,
    }
}

// Checks 4 to 6.
#[tactic(auto, unfolding(crate::specs::LastChecks::last_checks))]
fn last_checks(h: Header, c: Entry) -> Ruling
    ensures { result ≡ last_checks h c }
{
    if bad_attribute(h.aca, c.asked) {
        return Ruling::Changes(
            Answer::EndedAtEntry(CHECK_CONDITION, sense(0x5, 0x49, 0x00)),
            failed(h, c, Sweep::Nobody, None),
        );
    }
    if is_full(h) {
        return Ruling::Keeps(ended_with(TASK_SET_FULL));
    }
    Ruling::Changes(Answer::Done, accepted(h, c))
}

// Checks 3 to 6.
#[tactic(auto, unfolding(crate::specs::LastChecks::last_checks, crate::specs::LastChecks::checks_past_aca))]
fn checks_past_aca(h: Header, c: Entry, p: Pending) -> Ruling
    ensures { result ≡ checks_past_aca h c p }
{
    let top = bit_if(c.exempt, p);
    match top {
        Some(b) => Ruling::Changes(
            Answer::EndedAtEntry(CHECK_CONDITION, sense_for(b)),
            failed(h, c, Sweep::Nobody, top),
        ),
        None => last_checks(h, c),
    }
}

// Checks 1 to 6: `here` says whether a task of the command's nexus and tag is in the set, `has_aca` whether an ACA task is.
pub fn enter(h: Header, c: Entry, here: bool, has_aca: bool, p: Pending) -> Ruling
    ensures { result ≡ Rattle.rules.specs.Rules.enter h c here has_aca p }
{
    if here {
        return Ruling::Changes(
            Answer::EndedAtEntry(CHECK_CONDITION, sense(0xB, 0x4E, 0x00)),
            failed(h, c, Sweep::NexusTasks(c.nexus), None),
        );
    }
    if held_off(h.aca, c.nexus, asks_aca(c.asked), has_aca) {
        return Ruling::Keeps(ended_with(held_status(h.aca, c.nexus, c.naca)));
    }
    checks_past_aca(h, c, p)
}
