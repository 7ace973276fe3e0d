// The header record.
ghost use Rattle.std.specs.Prelude.{◌≡◌, ◌+◌, ◌≤◌, true, length};
ghost use Rattle.rules.specs.Well.{fault_fits};
ghost use Rattle.laws.specs.RecordsInLists.{record_at};
ghost use Rattle.records.specs.Numbers.{aca_number, aca_from, qerr_number, qerr_from, policy_number, policy_fits, policy_from};
ghost use Rattle.records.specs.Records.{head_size, header_bytes, header_from, header_fits};

use octets::sizes::{ACA_OFFSET, COUNT_OFFSET, HEAD_SIZE, POLICY_OFFSET, RUN_OFFSET};
use octets::{bit_of, flag_byte, is_mark};
use values::{Header, MOST_TASKS, NEXUS_BOUND, Policy, Qerr};

// Kept (docs/DESIGN-PASS.md, 4): as in tasks.rt.
pub fn policy_fits(n: u8) -> bool
    ensures { result ≡ policy_fits n }
{
    (n < 8) & !(n % 4 == 2)
}

fn qerr_from(n: u8) -> Qerr
    ensures { result ≡ qerr_from n }
{
    match n {
        0 => Qerr::EndNone,
        1 => Qerr::EndAll,
        _ => Qerr::EndNexus,
    }
}

pub fn policy_from(n: u8) -> Policy
    ensures { result ≡ policy_from n }
{
    Policy {
        qerr: qerr_from(n % 4),
        tas: bit_of(n, 4),
    }
}

fn qerr_number(q: Qerr) -> u8
    ensures { (result ≡ qerr_number q) × (result ≤ 3) }
{
    match q {
        Qerr::EndNone => 0,
        Qerr::EndAll => 1,
        Qerr::EndNexus => 3,
    }
}

pub fn policy_number(p: Policy) -> u8
    ensures { result ≡ policy_number p }
{
    qerr_number(p.qerr) + flag_byte(p.tas) * 4
}

fn aca_from(n: u8) -> Option<u8>
    ensures { result ≡ aca_from n }
{
    n.checked_sub(1)
}

pub fn aca_number(a: Option<u8>) -> u8
    requires { fault_fits a ≡ true }
    ensures { result ≡ aca_number a }
{
    match a {
        None => 0,
        Some(f) => f + 1,
    }
}

pub fn header_fits(r: [u8; HEAD_SIZE]) -> bool
    ensures { result ≡ header_fits r }
{
    is_mark(r[0], r[1], 0x48)
        & (r[2] == 1)
        & policy_fits(r[POLICY_OFFSET])
        & (r[COUNT_OFFSET] <= MOST_TASKS)
        & (r[ACA_OFFSET] <= NEXUS_BOUND)
        & (r[RUN_OFFSET] <= 4)
        & (r[7] == 0)
}

// What the header of a lent table says; only the bytes that say it are read.
pub fn header_in(t: &[u8]) -> Header
    requires { head_size ≤ length t.now }
    ensures { result ≡ header_from (record_at head_size t.now 0) }
{
    Header {
        policy: policy_from(t[POLICY_OFFSET]),
        count: t[COUNT_OFFSET],
        aca: aca_from(t[ACA_OFFSET]),
        run: t[RUN_OFFSET],
    }
}

pub fn header_bytes(h: Header) -> [u8; HEAD_SIZE]
    requires { fault_fits h.aca ≡ true }
    ensures { result ≡ header_bytes h }
{
    [
        0x54,
        0x48,
        1,
        policy_number(h.policy),
        h.count,
        aca_number(h.aca),
        h.run,
        0,
    ]
}
