// RULES 1.4: the lower layer's values: tasks, header, events, unit attentions, answers, rulings. No byte of the table is known here. They are declared at the
// root, under their short paths (docs/SPEED.md).
#![tactic(auto)]

ghost use Rattle.std.specs.Prelude.{◌≡◌};

mod headers;

// ---- RULES 1.1 and 1.5: how many there are at most; specs/Limits.antt has the same numbers for contracts and laws.

pub const NEXUSES: usize = 8;

pub const PLACES: usize = 64;

// As bytes: a nexus is below the first, a task count at most the second.
pub const NEXUS_BOUND: u8 = 8;

pub const MOST_TASKS: u8 = 64;

// ---- RULES 1.6 to 1.8: a task in the set.

// RULES 1.8: a tag has two bytes; this is the one place that says so to the rules.
pub type Tag = u16;

pub const TAG_MAX: Tag = u16::MAX;

// RULES 1.6
#[derive(Clone, Copy, PartialEq, Eq)]
pub enum Attribute {
    Simple,
    HeadOfQueue,
    Ordered,
    Aca,
}

// RULES 1.7
#[derive(Clone, Copy, PartialEq, Eq)]
pub enum TaskState {
    Dormant,
    Enabled,
    Blocked,
}

// RULES 1.8
#[derive(Clone, Copy, PartialEq, Eq)]
pub struct Task {
    pub nexus: u8,
    pub attribute: Attribute,
    pub state: TaskState,
    pub naca: bool,
    pub tag: Tag,
}

// ---- RULES 1.9 and 1.10: the header's state: policy, task count, ACA and run.

// RULES 1.9: QERR 00b, 01b and 11b.
#[derive(Clone, Copy, PartialEq, Eq)]
pub enum Qerr {
    EndNone,
    EndAll,
    EndNexus,
}

// RULES 1.9
#[derive(Clone, Copy, PartialEq, Eq)]
pub struct Policy {
    pub qerr: Qerr,
    pub tas: bool,
}

// RULES 1.10: `aca` is the nexus that an auto contingent allegiance is for, where one is in effect.
#[derive(Clone, Copy, PartialEq, Eq)]
pub struct Header {
    pub policy: Policy,
    pub count: u8,
    pub aca: Option<u8>,
    pub run: u8,
}

// ---- RULES 1.11: what can happen to the set.

// RULES 1.2 and 16.1: a COMMAND's fields; of its command block NACA and exempt, and no more. It asks for one of the four attributes, or by a byte that is none
// of them.
#[derive(Clone, Copy, PartialEq, Eq)]
pub struct Entry {
    pub nexus: u8,
    pub asked: Option<Attribute>,
    pub naca: bool,
    pub exempt: bool,
    pub tag: Tag,
}

// RULES 16.2: the status that a COMPLETION brings.
#[derive(Clone, Copy, PartialEq, Eq)]
pub enum Finish {
    Good = 0x00,
    CheckCondition = 0x02,
    Busy = 0x08,
    ReservationConflict = 0x18,
}

// RULES 16.3: what a MANAGEMENT asks for; ABORT TASK has its own tag.
#[derive(Clone, Copy, PartialEq, Eq)]
pub enum Function {
    AbortTask(Tag),
    AbortTaskSet,
    ClearTaskSet,
    ClearAca,
    LogicalUnitReset,
    Unknown,
}

// RULES 16.4: what a CONDITION reports.
#[derive(Clone, Copy, PartialEq, Eq)]
pub enum Happening {
    PowerOn,
    HardReset,
    NexusLoss(u8),
}

// RULES 1.11. The first number of COMPLETION and MANAGEMENT is the nexus.
#[derive(Clone, Copy, PartialEq, Eq)]
pub enum Event {
    Command(Entry),
    Completion(u8, Tag, Finish),
    Management(u8, Function),
    Condition(Happening),
}

// ---- RULES 1.12: the unit attentions that wait for a nexus.

// RULES 1.12 and 3.1: several can be set at once.
#[derive(Clone, Copy, PartialEq, Eq)]
pub struct Pending {
    pub power: bool,
    pub hard: bool,
    pub unit: bool,
    pub loss: bool,
    pub cleared: bool,
}

// RULES 3.1: one of the five, highest rank first.
#[derive(Clone, Copy, PartialEq, Eq)]
pub enum Bit {
    PowerBit,
    HardBit,
    UnitBit,
    LossBit,
    ClearedBit,
}

// ---- RULES 18: what a caller is told.

// RULES 18.2
#[derive(Clone, Copy, PartialEq, Eq)]
pub struct Sense {
    pub key: u8,
    pub code: u8,
    pub qualifier: u8,
}

// RULES 18.1: answers 0 to 9, in the order of their numbers. A bad table, report, event or policy is the byte layer's to find.
#[derive(Clone, Copy, PartialEq, Eq)]
pub enum Answer {
    Done,
    BadTable,
    BadReport,
    BadEvent,
    NexusAboveSeven,
    NoSuchTask,
    NotEnabled,
    EndedAtEntry(u8, Sense),
    Rejected,
    BadPolicy,
}

// RULES 4.4, 5.5, 5.11 to 5.13 and 6.6: the statuses that are sent, by their bytes, and what stands where none is.
// Kept (docs/DESIGN-PASS.md, 1): bytes, as `said`, `fate_of` and `ended_from` have them, and as they are at all three ends.
pub const CHECK_CONDITION: u8 = 0x02;

pub const BUSY: u8 = 0x08;

pub const TASK_SET_FULL: u8 = 0x28;

pub const ACA_ACTIVE: u8 = 0x30;

pub const TASK_ABORTED: u8 = 0x40;

pub const NO_STATUS: u8 = 0xFF;

// ---- RULES 4 and 9.4: what the rules decide about an event: plain values, which the byte layer carries out.

// RULES 4.4 and 4.9: a task that ended, with the status to send for it, or FFh for none.
#[derive(Clone, Copy, PartialEq, Eq)]
pub struct Ended {
    pub nexus: u8,
    pub status: u8,
    pub tag: Tag,
}

// RULES 4.3 to 4.6: which tasks an event ends, and with which status.
#[derive(Clone, Copy, PartialEq, Eq)]
pub enum Sweep {
    Nobody,
    // the task of this nexus and tag, with this status
    OneTask(u8, Tag, u8),
    // those of this nexus, with FFh
    NexusTasks(u8),
    // the ACA task, with FFh
    AcaTask,
    // all, with FFh
    AllTasks,
    // all, by a CLEAR TASK SET from this nexus or by QERR 01b for it, under this policy
    ClearedBy(u8, Policy),
    // the task of this nexus and tag with CHECK CONDITION, and what QERR adds under this policy
    FailedTask(u8, Tag, Policy),
}

// RULES 3.4 to 3.9 and 4.7: what becomes of the pending bits.
#[derive(Clone, Copy, PartialEq, Eq)]
pub enum Notice {
    Quiet,
    // this bit of this nexus was reported
    Reported(u8, Bit),
    // every nexus but this one that lost a task learns that its commands were cleared
    OthersLost(u8),
    // both at once: this bit of this nexus was reported, and every other nexus that lost a task learns of it
    ReportedAndOthersLost(u8, Bit),
    // this nexus was lost
    NexusLost(u8),
    UnitWasReset,
    HardWasReset,
    PowerCameOn,
}

// RULES 4.8: `joins` is the task that joins, if one does.
#[derive(Clone, Copy, PartialEq, Eq)]
pub struct Change {
    pub sweep: Sweep,
    pub joins: Option<Task>,
    pub header: Header,
    pub notice: Notice,
}

// RULES 9.4: either the set stays as it is, or it changes.
#[derive(Clone, Copy, PartialEq, Eq)]
pub enum Ruling {
    Keeps(Answer),
    Changes(Answer, Change),
}

// RULES 2.1 and 2.10 to 2.12: whom the turn rule names.
#[derive(Clone, Copy, PartialEq, Eq)]
pub struct Named {
    pub nexus: u8,
    pub tag: Tag,
}

impl From<Task> for Named {
    ghost from_gives = { λ t r. r ≡ record { nexus = t.nexus; tag = t.tag } };

    fn from(t: Task) -> Named {
        Named {
            nexus: t.nexus,
            tag: t.tag,
        }
    }
}

// ---- RULES 19: what the operations say; the numbers of each answer are in operations/specs/AnswerNumbers.

// RULES 19.2: the answer to an event, and the ended count.
#[derive(Clone, Copy, PartialEq, Eq)]
pub struct Applied {
    pub answer: Answer,
    pub ended: u8,
}

// RULES 19.4: whose turn it is, if it is anybody's.
#[derive(Clone, Copy, PartialEq, Eq)]
pub struct Naming {
    pub answer: Answer,
    pub turn: Option<Named>,
}
