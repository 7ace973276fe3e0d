// Whether a table is well formed: header, nexus records, used records with their states in one pass, unused records, pairs.
ghost use Rattle.std.specs.Prelude.{◌≡◌, ◌++◌, ◌+◌, ◌-◌, ◌*◌, ◌≤◌, take, drop};
ghost use Rattle.octets.specs.Sizes.{nexuses_at, task_size, tasks_at, tag_bound};
ghost use Rattle.rules.specs.Tasks.{places, nexuses};
ghost use Rattle.decide.specs.OlderTasks.{no_older};
ghost use Rattle.records.specs.Tables.{nexuses_fit, unused_fit, good_table};
ghost use Rattle.inspect.specs.TableTest.{used_fit, keys_from, keys_apart, Spared, records_fit};

use decide::states::{behind, fits, no_older};
use octets::records::{get_tagged, load_record};
use octets::sizes::{NEXUS_SIZE, NEXUSES_AT, TABLE_SIZE, TASK_SIZE, TASKS_AT, Table};
use records::header::{header_fits, header_in};
use records::nexus::nexus_fits;
use records::tasks::{task_fits, task_from, unlike_unused};
use values::{NEXUSES, PLACES, TAG_MAX, Tag};

// Nexus and tag as one number.
pub type Key = u32;

// Tags are below it.
const TAG_BOUND: Key = (TAG_MAX as Key) + 1;

// No task has it: its nexus would be 256.
const SPARE_KEY: Key = 256 * TAG_BOUND;

fn key_of(n: u8, g: Tag) -> Key
    ensures { result ≡ n * tag_bound + g }
{
    (n as Key) * TAG_BOUND + (g as Key)
}

fn nexuses_fit(t: &Table) -> bool
    ensures { result ≡ nexuses_fit 0 nexuses (drop nexuses_at t.now) }
{
    for n in 0..NEXUSES {
        if !nexus_fits(load_record(t, NEXUSES_AT + NEXUS_SIZE * n), n as u8) {
            return false;
        }
    }
    true
}

// The state first: a state that fits settles most of what the record's own test asks, and the compiler sees it.
fn used_fit(t: &Table, n: usize, aca: Option<u8>) -> bool
    requires { n ≤ places }
    ensures { result ≡ used_fit n aca no_older (drop tasks_at t.now) }
{
    let mut o = no_older();
    for i in 0..n {
        let r = load_record(t, TASKS_AT + TASK_SIZE * i);
        let k = task_from(r);
        let a = k.attribute;
        if !fits(aca, k, o, i + 1 == n) {
            return false;
        }
        if !task_fits(r) {
            return false;
        }
        o = behind(a, o);
    }
    true
}

fn unused_fit(t: &Table, n: usize) -> bool
    requires { n ≤ places }
    ensures { result ≡ unused_fit (places - n) (drop (tasks_at + task_size * n) t.now) }
{
    let mut unlike: u64 = 0;
    for i in n..PLACES {
        unlike |= unlike_unused(load_record(t, TASKS_AT + TASK_SIZE * i));
    }
    unlike == 0
}

fn note_keys(t: &Table, n: usize, keys: &mut [Key; 68])
    requires { n ≤ places }
    ensures { keys.new ≡ keys_from n (drop tasks_at t.now) ++ drop n keys.old }
{
    for i in 0..n {
        let k = task_from(get_tagged(t, TASKS_AT + TASK_SIZE * i));
        keys[i] = key_of(k.nexus, k.tag);
    }
}

// RULES 10.5. Four at a time: behind the n stand keys that no task has, so that the last four may reach past it.
fn distinct(keys: &[Key; 68], n: usize) -> bool
    requires { (n ≤ places) × Spared keys.now n }
    ensures { result ≡ keys_apart (take n keys.now) }
{
    let mut clear = true;
    'pairs: for i in 0..n {
        let k = keys[i];
        // Kept (docs/DESIGN-PASS.md, 3): the speed; (i + 1..n).step_by(4) takes 5 instructions an event more at 3 tasks, 1,439 at 64.
        let mut j = i + 1;
        while j < n {
            if keys[j..j + 4].contains(&k) {
                clear = false;
                break 'pairs;
            }
            j += 4;
        }
    }
    clear
}

fn names_fit(t: &Table, n: usize) -> bool
    requires { n ≤ places }
    ensures { result ≡ keys_apart (keys_from n (drop tasks_at t.now)) }
{
    let mut keys: [Key; 68] = [SPARE_KEY; 68];
    note_keys(t, n, &mut keys);
    distinct(&keys, n)
}

fn records_fit(t: &Table, n: usize, aca: Option<u8>) -> bool
    requires { n ≤ places }
    ensures { result ≡ records_fit n aca t.now }
{
    nexuses_fit(t) & (used_fit(t, n, aca) & (unused_fit(t, n) & names_fit(t, n)))
}

// Whatever the bytes and however many.
// The length by a test of its own (docs/DESIGN-PASS.md, 5): the speed; as_array as that test takes 3 instructions an event more.
pub fn table_fits(t: &[u8]) -> bool
    ensures { result ≡ good_table t.now }
{
    if t.len() != TABLE_SIZE {
        return false;
    }
    let Some(table) = t.as_array() else {
        unreachable!()
    };
    let r = load_record(table, 0);
    if !header_fits(r) {
        return false;
    }
    let h = header_in(table);
    let aca = h.aca;
    records_fit(table, h.count as usize, aca)
}
