// Task records, used and unused, and ended ones.
ghost use Rattle.std.specs.Prelude.{◌≡◌, eqb};
ghost use Rattle.records.specs.Numbers.{attribute_number, attribute_fits, attribute_from, state_number, state_fits, state_from};
ghost use Rattle.records.specs.Records.{task_bytes, task_from, task_fits, unused_fits, unused_bytes, ended_bytes};

use octets::sizes::{
    ATTRIBUTE_OFFSET, CONTROL_OFFSET, ENDED_SIZE, NEXUS_OFFSET, STATE_OFFSET, TASK_SIZE,
};
use octets::{flag_byte, is_mark, tag_in, tagged_bytes, word_of};
use values::{Attribute, NEXUS_BOUND, Tag, Task, TaskState};

// Kept, with what decodes in header.rt, nexus.rt and events.rt (docs/DESIGN-PASS.md, 4): no plainer. A table is tested before it is decoded, so that a TryFrom's
// error would have no reader, and an impl for a type of `values` can stand in `values` alone, which knows no byte of the table (RULES 1.4, 25.1).
pub fn attribute_fits(n: u8) -> bool
    ensures { result ≡ attribute_fits n }
{
    matches!(n, 0 | 1 | 2 | 4)
}

pub fn attribute_from(n: u8) -> Attribute
    ensures { result ≡ attribute_from n }
{
    match n {
        0 => Attribute::Simple,
        1 => Attribute::HeadOfQueue,
        2 => Attribute::Ordered,
        _ => Attribute::Aca,
    }
}

// No discriminants (docs/DESIGN-PASS.md, 4), here, at a state and at a policy: what may not change; `values` knows no byte of the table (RULES 1.4).
fn attribute_number(a: Attribute) -> u8
    ensures { result ≡ attribute_number a }
{
    match a {
        Attribute::Simple => 0,
        Attribute::HeadOfQueue => 1,
        Attribute::Ordered => 2,
        Attribute::Aca => 4,
    }
}

fn state_fits(n: u8) -> bool
    ensures { result ≡ state_fits n }
{
    matches!(n, 1..=3)
}

pub fn state_from(n: u8) -> TaskState
    ensures { result ≡ state_from n }
{
    match n {
        1 => TaskState::Dormant,
        2 => TaskState::Enabled,
        _ => TaskState::Blocked,
    }
}

pub fn state_number(s: TaskState) -> u8
    ensures { result ≡ state_number s }
{
    match s {
        TaskState::Dormant => 1,
        TaskState::Enabled => 2,
        TaskState::Blocked => 3,
    }
}

pub fn task_fits(r: [u8; TASK_SIZE]) -> bool
    ensures { result ≡ task_fits r }
{
    is_mark(r[0], r[1], 0x54)
        & (r[NEXUS_OFFSET] < NEXUS_BOUND)
        & attribute_fits(r[ATTRIBUTE_OFFSET])
        & state_fits(r[STATE_OFFSET])
        & (r[CONTROL_OFFSET] < 2)
}

pub fn task_from(r: [u8; TASK_SIZE]) -> Task
    ensures { result ≡ task_from r }
{
    Task {
        nexus: r[NEXUS_OFFSET],
        attribute: attribute_from(r[ATTRIBUTE_OFFSET]),
        state: state_from(r[STATE_OFFSET]),
        naca: r[CONTROL_OFFSET] == 1,
        tag: tag_in(r),
    }
}

pub fn task_bytes(t: Task) -> [u8; TASK_SIZE]
    ensures { result ≡ task_bytes t }
{
    tagged_bytes(
        0x54,
        t.nexus,
        attribute_number(t.attribute),
        state_number(t.state),
        flag_byte(t.naca),
        t.tag,
    )
}

// 0 where the record is an unused one. As a number, so that of many records the compiler looks at several at once.
pub fn unlike_unused(r: [u8; TASK_SIZE]) -> u64
    ensures { eqb result 0 ≡ unused_fits r }
{
    word_of(r) ^ 0x5454
}

pub fn unused_bytes() -> [u8; TASK_SIZE]
    ensures { result ≡ unused_bytes }
{
    tagged_bytes(0x54, 0, 0, 0, 0, 0)
}

// The ended record of a task, by its nexus, the status to send and its tag.
pub fn ended_bytes(n: u8, status: u8, g: Tag) -> [u8; ENDED_SIZE]
    ensures { result ≡ ended_bytes (record { nexus = n; status = status; tag = g }) }
{
    tagged_bytes(0x45, n, status, 0, 0, g)
}
