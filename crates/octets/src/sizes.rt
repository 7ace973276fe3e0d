// RULES 13: how long the records are, and where they and their fields stand: the numbers for code. specs/Sizes.antt has the same for contracts and laws.
use values::{NEXUSES, PLACES};

// Header and nexus records.
pub const UNTAGGED_SIZE: usize = 8;

// Records that name a task, which end with its tag: task, ended and event records.
pub const TAG_OFFSET: usize = 6;

pub const TAG_SIZE: usize = 2;

pub const TAGGED_SIZE: usize = TAG_OFFSET + TAG_SIZE;

pub const HEAD_SIZE: usize = UNTAGGED_SIZE;

pub const NEXUS_SIZE: usize = UNTAGGED_SIZE;

pub const TASK_SIZE: usize = TAGGED_SIZE;

pub const ENDED_SIZE: usize = TAGGED_SIZE;

pub const EVENT_SIZE: usize = TAGGED_SIZE;

pub const NEXUSES_AT: usize = HEAD_SIZE;

pub const TASKS_AT: usize = NEXUSES_AT + NEXUS_SIZE * NEXUSES;

pub const TABLE_SIZE: usize = TASKS_AT + TASK_SIZE * PLACES;

pub const REPORT_SIZE: usize = ENDED_SIZE * PLACES;

// What a driver lends, once its length is looked at.
pub type Table = [u8; TABLE_SIZE];

pub type Report = [u8; REPORT_SIZE];

// In the header record.
pub const POLICY_OFFSET: usize = 3;

pub const COUNT_OFFSET: usize = 4;

pub const ACA_OFFSET: usize = 5;

pub const RUN_OFFSET: usize = 6;

// In a nexus record, and in the first of them.
pub const PENDING_OFFSET: usize = 3;

pub const PENDINGS_AT: usize = NEXUSES_AT + PENDING_OFFSET;

// In an event record.
pub const KIND_OFFSET: usize = 2;

pub const SENDER_OFFSET: usize = 3;

pub const FIRST_OFFSET: usize = 4;

pub const SECOND_OFFSET: usize = 5;

// In a task record, and in the first of them.
pub const NEXUS_OFFSET: usize = 2;

pub const ATTRIBUTE_OFFSET: usize = 3;

pub const STATE_OFFSET: usize = 4;

pub const CONTROL_OFFSET: usize = 5;

pub const ATTRIBUTES_AT: usize = TASKS_AT + ATTRIBUTE_OFFSET;

pub const STATES_AT: usize = TASKS_AT + STATE_OFFSET;

// In an ended record, which has its nexus where a task record has it.
pub const STATUS_OFFSET: usize = 3;
