// The nexus records: pending bits.
ghost use Rattle.std.specs.Prelude.{◌≡◌};
ghost use Rattle.records.specs.Numbers.{pending_number, pending_from};
ghost use Rattle.records.specs.Records.{nexus_bytes, nexus_fits};

use octets::sizes::NEXUS_SIZE;
use octets::{bit_of, flag_byte, word_of};
use values::Pending;

// Kept (docs/DESIGN-PASS.md, 4): as in tasks.rt.
pub fn pending_from(n: u8) -> Pending
    ensures { result ≡ pending_from n }
{
    Pending {
        power: bit_of(n, 1),
        hard: bit_of(n, 2),
        unit: bit_of(n, 4),
        loss: bit_of(n, 8),
        cleared: bit_of(n, 16),
    }
}

pub fn pending_number(p: Pending) -> u8
    ensures { result ≡ pending_number p }
{
    flag_byte(p.power)
        + flag_byte(p.hard) * 2
        + flag_byte(p.unit) * 4
        + flag_byte(p.loss) * 8
        + flag_byte(p.cleared) * 16
}

// As one number, so that the compiler compares the record once: below 2^29 are the first three bytes and five bits of the fourth.
pub fn nexus_fits(r: [u8; NEXUS_SIZE], n: u8) -> bool
    ensures { result ≡ nexus_fits n r }
{
    let w = word_of(r);
    (w < 0x2000_0000) & (w % 0x0100_0000 == 0x4E54 + 0x0001_0000 * (n as u64))
}

// No task of the nexus is counted yet.
pub fn nexus_bytes(n: u8, p: Pending) -> [u8; NEXUS_SIZE]
    ensures { result ≡ nexus_bytes n p 0 }
{
    [0x54, 0x4E, n, pending_number(p), 0, 0, 0, 0]
}
