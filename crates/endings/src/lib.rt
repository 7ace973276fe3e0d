// Completions: the rulings on them, on values.
#![tactic(auto)]

ghost use Rattle.std.specs.Prelude.{◌≡◌};
ghost use Rattle.rules.specs.Rules.{aca_after};

use decide::states::{is_aca, is_enabled};
use parts::{tell, tells_others};
use values::{Answer, Change, Finish, Header, Notice, Ruling, Sweep, Task};

fn aca_after(t: Task, aca: Option<u8>) -> Option<u8>
    ensures { result ≡ aca_after t aca }
{
    if t.naca {
        Some(t.nexus)
    } else if is_aca(t.attribute) {
        None
    } else {
        aca
    }
}

fn ending(h: Header, f: Finish, t: Task, named: bool) -> Change
    ensures { result ≡ Rattle.rules.specs.Rules.ending h f t named }
{
    Change {
        sweep: Sweep::OneTask(t.nexus, t.tag, f as u8),
        joins: None,
        header: h.run_next(t.attribute, named),
        notice: Notice::Quiet,
    }
}

pub fn finish(h: Header, f: Finish, t: Task, named: bool) -> Change
    ensures { result ≡ Rattle.rules.specs.Rules.finish h f t named }
{
    match f {
        Finish::CheckCondition => Change {
            sweep: Sweep::FailedTask(t.nexus, t.tag, h.policy),
            joins: None,
            header: h.run_next(t.attribute, named).with_aca(aca_after(t, h.aca)),
            notice: tell(t.nexus, None, tells_others(h.policy.qerr, h.policy.tas)),
        },
        _ => ending(h, f, t, named),
    }
}

#[tactic(auto, unfolding(rules::specs::Rules::complete))]
pub fn complete(h: Header, found: Option<Task>, f: Finish, named: bool) -> Ruling
    ensures { result ≡ Rattle.rules.specs.Rules.complete h found f named }
{
    match found {
        None => Ruling::Keeps(Answer::NoSuchTask),
        Some(t) if is_enabled(t.state) => Ruling::Changes(Answer::Done, finish(h, f, t, named)),
        Some(_) => Ruling::Keeps(Answer::NotEnabled),
    }
}
