// Searches over the used records, and whose turn it is.
#![tactic(auto)]

ghost use Rattle.std.specs.Prelude.{◌≡◌, ◌≤◌, Bool, length, drop};
ghost use Rattle.laws.specs.Lists.{first};
ghost use Rattle.octets.specs.Sizes.{tasks_at, table_size};
ghost use Rattle.rules.specs.Tasks.{places};
ghost use Rattle.decide.specs.Searches.{Tests, searched_turn};
ghost use Rattle.records.specs.Tables.{tasks_from};
ghost use Rattle.rules.specs.Types.{Task};

use decide::turns::{aca_task, choose, enabled_head, enabled_plain, turn_of};
use octets::records::get_tagged;
use octets::sizes::{TASK_SIZE, TASKS_AT};
use records::tasks::task_from;
use values::{Named, Task};

// The oldest of the first n tasks that is wanted.
// Kept a slice, here and in turn_in (docs/DESIGN-PASS.md, 5): what may not change, the stack of dedakhumi_name; with an array it takes 384 bytes for 368.
pub fn search<F: Fn(Task) -> bool>(t: &[u8], n: usize, wants: F) -> Option<Task>
    requires long { length t.now ≡ table_size }
    requires within { n ≤ places }
    requires callable { F.IsAlwaysCallable wants }
    ensures { (p : Task → Bool) → Tests (F.post wants) p → result ≡ first p (tasks_from n (drop tasks_at t.now)) }
{
    for i in 0..n {
        let k = task_from(get_tagged(t, TASKS_AT + TASK_SIZE * i));
        if wants(k) {
            return Some(k);
        }
    }
    None
}

pub fn turn_in(t: &[u8], n: usize, aca: Option<u8>, run: u8) -> Option<Named>
    requires long { length t.now ≡ table_size }
    requires within { n ≤ places }
    ensures { result ≡ searched_turn aca run (tasks_from n (drop tasks_at t.now)) }
{
    match aca {
        Some(_) => turn_of(search(t, n, aca_task)),
        None => turn_of(choose(search(t, n, enabled_head), search(t, n, enabled_plain), run)),
    }
}
