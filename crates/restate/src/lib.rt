// States settled, or blocked, in place: of a record only the state byte is stored.
#![tactic(auto)]

ghost use Rattle.std.specs.Prelude.{◌≡◌, ◌≤◌};
ghost use Rattle.rules.specs.Tasks.{places};
ghost use Rattle.steps.specs.Steps.{settled_bytes, blocked_bytes, restated_bytes};

use decide::states::{behind, blocked_state, no_older, settled_state};
use octets::sizes::{ATTRIBUTES_AT, STATES_AT, TASK_SIZE, Table};
use records::tasks::{attribute_from, state_from, state_number};

fn settle(t: &mut Table, n: usize)
    requires { n ≤ places }
    ensures { t.new ≡ settled_bytes n t.old }
{
    let mut o = no_older();
    for i in 0..n {
        let a = attribute_from(t[ATTRIBUTES_AT + TASK_SIZE * i]);
        t[STATES_AT + TASK_SIZE * i] = state_number(settled_state(a, o));
        o = behind(a, o);
    }
}

fn block(t: &mut Table, n: usize)
    requires { n ≤ places }
    ensures { t.new ≡ blocked_bytes n t.old }
{
    for i in 0..n {
        let s = state_from(t[STATES_AT + TASK_SIZE * i]);
        t[STATES_AT + TASK_SIZE * i] = state_number(blocked_state(s));
    }
}

// By the allegiance before the event and after it.
pub fn restate(t: &mut Table, n: usize, before: Option<u8>, after: Option<u8>)
    requires { n ≤ places }
    ensures { t.new ≡ restated_bytes before after n t.old }
{
    match (before, after) {
        (_, None) => settle(t, n),
        (None, Some(_)) => block(t, n),
        (Some(_), Some(_)) => {}
    }
}
