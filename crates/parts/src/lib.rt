// What rulings are made of: what the checks at entry ask, and the pieces that more than one ruling has.
#![tactic(auto)]

ghost use Rattle.std.specs.Prelude.{◌≡◌, cond, leb, None};
ghost use Rattle.rules.specs.Tasks.{places};
ghost use Rattle.rules.specs.Bits.{top};
ghost use Rattle.rules.specs.Rules.{sweeping, asks_aca, bad_attribute, attribute_of, tells_others, telling};
ghost use Rattle.parts.specs.CheckTwo.{held_off, held_status};

use decide::pending::top_bit;
use decide::states::is_aca;
use values::{
    ACA_ACTIVE, Attribute, BUSY, Bit, Change, Header, MOST_TASKS, Notice, Pending, Qerr, Sweep,
};

pub fn asks_aca(asked: Option<Attribute>) -> bool
    ensures { result ≡ asks_aca asked }
{
    asked.is_some_and(is_aca)
}

// Check 2 stops the command.
pub fn held_off(aca: Option<u8>, n: u8, asks: bool, has_aca: bool) -> bool
    ensures { result ≡ held_off aca n asks has_aca }
{
    match aca {
        None => false,
        Some(f) => !((n == f) & asks & !has_aca),
    }
}

// The status that check 2 gives.
pub fn held_status(aca: Option<u8>, n: u8, naca: bool) -> u8
    ensures { result ≡ held_status aca n naca }
{
    if aca.is_none_or(|f| (n == f) | naca) {
        ACA_ACTIVE
    } else {
        BUSY
    }
}

pub fn bit_if(exempt: bool, p: Pending) -> Option<Bit>
    ensures { result ≡ cond exempt None (top p) }
{
    if exempt { None } else { top_bit(p) }
}

pub fn bad_attribute(aca: Option<u8>, asked: Option<Attribute>) -> bool
    ensures { result ≡ bad_attribute aca asked }
{
    match asked {
        Some(a) => is_aca(a) & aca.is_none(),
        None => true,
    }
}

pub fn attribute_of(asked: Option<Attribute>) -> Attribute
    ensures { result ≡ attribute_of asked }
{
    asked.unwrap_or(Attribute::Simple)
}

pub fn is_full(h: Header) -> bool
    ensures { result ≡ leb places h.count }
{
    MOST_TASKS <= h.count
}

pub fn sweeping_by(h: Header, w: Sweep) -> Change
    ensures { result ≡ sweeping h w }
{
    Change {
        sweep: w,
        joins: None,
        header: h,
        notice: Notice::Quiet,
    }
}

// QERR and TAS have nexuses that lose tasks told by a bit.
pub fn tells_others(qerr: Qerr, tas: bool) -> bool
    ensures { result ≡ tells_others qerr tas }
{
    (qerr == Qerr::EndAll) & !tas
}

pub fn tell(n: u8, top: Option<Bit>, others: bool) -> Notice
    ensures { result ≡ telling n top others }
{
    match top {
        None if others => Notice::OthersLost(n),
        None => Notice::Quiet,
        Some(b) if others => Notice::ReportedAndOthersLost(n, b),
        Some(b) => Notice::Reported(n, b),
    }
}
