// The pending bits of a nexus.
ghost use Rattle.std.specs.Prelude.{◌≡◌};
ghost use Rattle.rules.specs.Bits.{no_pending, top, sense_for, without, after_power_on, after_hard_reset, after_unit_reset, after_nexus_loss, after_cleared};

use values::{Bit, Pending, Sense};

pub fn top_bit(p: Pending) -> Option<Bit>
    ensures { result ≡ top p }
{
    if p.power {
        Some(Bit::PowerBit)
    } else if p.hard {
        Some(Bit::HardBit)
    } else if p.unit {
        Some(Bit::UnitBit)
    } else if p.loss {
        Some(Bit::LossBit)
    } else if p.cleared {
        Some(Bit::ClearedBit)
    } else {
        None
    }
}

pub fn sense_for(b: Bit) -> Sense
    ensures { result ≡ sense_for b }
{
    let (code, qualifier) = match b {
        Bit::PowerBit => (0x29, 0x00),
        Bit::HardBit => (0x29, 0x02),
        Bit::UnitBit => (0x29, 0x03),
        Bit::LossBit => (0x29, 0x07),
        Bit::ClearedBit => (0x2F, 0x00),
    };
    Sense {
        key: 0x6,
        code,
        qualifier,
    }
}

pub fn without_bit(b: Bit, p: Pending) -> Pending
    ensures { result ≡ without b p }
{
    match b {
        Bit::PowerBit => Pending { power: false, ..p },
        Bit::HardBit => Pending { hard: false, ..p },
        Bit::UnitBit => Pending { unit: false, ..p },
        Bit::LossBit => Pending { loss: false, ..p },
        Bit::ClearedBit => Pending {
            cleared: false,
            ..p
        },
    }
}

pub fn after_power_on() -> Pending
    ensures { result ≡ after_power_on no_pending }
{
    Pending {
        power: true,
        hard: false,
        unit: false,
        loss: false,
        cleared: false,
    }
}

pub fn after_hard_reset(p: Pending) -> Pending
    ensures { result ≡ after_hard_reset p }
{
    Pending {
        hard: true,
        unit: false,
        loss: false,
        cleared: false,
        ..p
    }
}

pub fn after_unit_reset(p: Pending) -> Pending
    ensures { result ≡ after_unit_reset p }
{
    Pending {
        unit: true,
        loss: false,
        cleared: false,
        ..p
    }
}

pub fn after_nexus_loss(p: Pending) -> Pending
    ensures { result ≡ after_nexus_loss p }
{
    Pending {
        loss: true,
        cleared: false,
        ..p
    }
}

pub fn after_cleared(p: Pending) -> Pending
    ensures { result ≡ after_cleared p }
{
    Pending { cleared: true, ..p }
}
