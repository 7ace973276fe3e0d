// Where the counters stand: ends by status from 0 on, ends at entry by status from ENTRY_AT on, then the three others.
// Kept (docs/DESIGN-PASS.md, 5): one array, and no struct of five fields: `adds_log`, `shows_none` and `begins` speak of the counters as one list.
pub const STATUSES: usize = 256;

pub const ENTRY_AT: usize = STATUSES;

pub const ACCEPTED_AT: usize = ENTRY_AT + STATUSES;

pub const LARGEST_AT: usize = ACCEPTED_AT + 1;

pub const LEFT_AT: usize = LARGEST_AT + 1;

pub const COUNTERS: usize = LEFT_AT + 1;

pub type Counters = [u64; COUNTERS];
