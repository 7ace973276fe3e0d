// RULES 1.13 to 1.16: a header with a part of it changed, and run after a turn.
ghost use Rattle.std.specs.Prelude.{◌≡◌};
ghost use Rattle.values.specs.Headers.{fresh_header, with_count, with_aca, with_run, run_after, run_next};

use crate::{Attribute, Header, Policy};

impl Header {
    pub fn fresh(policy: Policy) -> Header
        ensures { result ≡ fresh_header policy }
    {
        Header {
            policy,
            count: 0,
            aca: None,
            run: 0,
        }
    }

    pub fn with_count(self, count: u8) -> Header
        ensures { result ≡ with_count self count }
    {
        Header { count, ..self }
    }

    pub fn with_aca(self, aca: Option<u8>) -> Header
        ensures { result ≡ with_aca self aca }
    {
        Header { aca, ..self }
    }

    pub fn with_run(self, run: u8) -> Header
        ensures { result ≡ with_run self run }
    {
        Header { run, ..self }
    }

    // RULES 1.15 and 1.16: a completion of the task whose turn it is, and any other.
    pub fn run_next(self, a: Attribute, named: bool) -> Header
        ensures { result ≡ run_next self a named }
    {
        if named {
            self.with_run(run_after(a, self.run))
        } else {
            self
        }
    }
}

// RULES 1.15: after a HEAD OF QUEUE task one more, and at most 4.
pub fn run_after(a: Attribute, run: u8) -> u8
    ensures { result ≡ run_after a run }
{
    match a {
        Attribute::HeadOfQueue => run.min(3) + 1,
        Attribute::Simple => 0,
        Attribute::Ordered => 0,
        Attribute::Aca => run,
    }
}
