// Management functions and conditions: the rulings on them, on values.
#![tactic(auto)]

ghost use Rattle.std.specs.Prelude.{◌≡◌};
ghost use Rattle.rules.specs.Rules.{resetting, clearing, clearing_set, aca_without, losing};

use parts::{sweeping_by, tell};
use values::{Answer, Change, Function, Happening, Header, NO_STATUS, Notice, Ruling, Sweep};

fn reset(h: Header, k: Notice) -> Change
    ensures { result ≡ resetting h k }
{
    Change {
        sweep: Sweep::AllTasks,
        joins: None,
        header: h.with_run(0).with_aca(None),
        notice: k,
    }
}

fn clear_aca(h: Header, n: u8, aca: Option<u8>) -> Ruling
    ensures { result ≡ clearing h n aca }
{
    match aca {
        None => Ruling::Keeps(Answer::Done),
        Some(f) if n == f => Ruling::Changes(
            Answer::Done,
            sweeping_by(h.with_aca(None), Sweep::AcaTask),
        ),
        Some(_) => Ruling::Keeps(Answer::Rejected),
    }
}

fn clear_task_set(h: Header, n: u8) -> Change
    ensures { result ≡ clearing_set h n }
{
    Change {
        sweep: Sweep::ClearedBy(n, h.policy),
        joins: None,
        header: h,
        notice: tell(n, None, !h.policy.tas),
    }
}

#[tactic(auto, unfolding(rules::specs::Rules::manage))]
pub fn manage(h: Header, n: u8, f: Function) -> Ruling
    ensures { result ≡ Rattle.rules.specs.Rules.manage h n f }
{
    match f {
        Function::AbortTask(g) => Ruling::Changes(
            Answer::Done,
            sweeping_by(h, Sweep::OneTask(n, g, NO_STATUS)),
        ),
        Function::AbortTaskSet => Ruling::Changes(
            Answer::Done,
            sweeping_by(h, Sweep::NexusTasks(n)),
        ),
        Function::ClearTaskSet => Ruling::Changes(Answer::Done, clear_task_set(h, n)),
        Function::ClearAca => clear_aca(h, n, h.aca),
        Function::LogicalUnitReset => Ruling::Changes(Answer::Done, reset(h, Notice::UnitWasReset)),
        Function::Unknown => Ruling::Keeps(Answer::Rejected),
    }
}

fn aca_without(n: u8, aca: Option<u8>) -> Option<u8>
    ensures { result ≡ aca_without n aca }
{
    aca.filter(|f| n != *f)
}

fn lose_nexus(h: Header, n: u8) -> Change
    ensures { result ≡ losing h n }
{
    Change {
        sweep: Sweep::NexusTasks(n),
        joins: None,
        header: h.with_aca(aca_without(n, h.aca)),
        notice: Notice::NexusLost(n),
    }
}

#[tactic(auto, unfolding(rules::specs::Rules::happen))]
pub fn happen(h: Header, c: Happening) -> Ruling
    ensures { result ≡ Rattle.rules.specs.Rules.happen h c }
{
    match c {
        Happening::PowerOn => Ruling::Changes(Answer::Done, reset(h, Notice::PowerCameOn)),
        Happening::HardReset => Ruling::Changes(Answer::Done, reset(h, Notice::HardWasReset)),
        Happening::NexusLoss(n) => Ruling::Changes(Answer::Done, lose_nexus(h, n)),
    }
}
