// The turn rule's choice, from what the two searches found.
ghost use Rattle.std.specs.Prelude.{◌≡◌};
ghost use Rattle.rules.specs.Tasks.{enabled_head, enabled_plain, aca_task, is_named, turn_of};
ghost use Rattle.decide.specs.Searches.{chosen};

use crate::states::{is_aca, is_enabled, is_head, is_plain};
use values::{Named, Tag, Task};

// What searches look for, beside the task of a nexus and tag (`same_task`).
pub fn enabled_head(t: Task) -> bool
    ensures { result ≡ enabled_head t }
{
    is_head(t.attribute) & is_enabled(t.state)
}

pub fn enabled_plain(t: Task) -> bool
    ensures { result ≡ enabled_plain t }
{
    is_plain(t.attribute) & is_enabled(t.state)
}

pub fn aca_task(t: Task) -> bool
    ensures { result ≡ aca_task t }
{
    is_aca(t.attribute)
}

// RULES 2.11 and 2.12, of what two searches found.
pub fn choose(head: Option<Task>, plain: Option<Task>, run: u8) -> Option<Task>
    ensures { result ≡ chosen head plain run }
{
    if run < 4 {
        head.or(plain)
    } else {
        plain.or(head)
    }
}

pub fn turn_of(found: Option<Task>) -> Option<Named>
    ensures { result ≡ turn_of found }
{
    found.map(Named::from)
}

pub fn is_named(n: u8, g: Tag, turn: Option<Named>) -> bool
    ensures { result ≡ is_named n g turn }
{
    turn == Some(Named { nexus: n, tag: g })
}
