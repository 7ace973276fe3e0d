// RULES 16: an event record decoded to an event or a refusal.
ghost use Rattle.std.specs.Prelude.{◌≡◌, cond, ◌||◌, ◌&&◌, eqb, Some, None};
ghost use Rattle.records.specs.Events.{asked_from, command_from, finish_from, completion_from, function_from, management_from, happening_from, condition_from, event_from, event_of};

use crate::tasks::{attribute_fits, attribute_from};
use octets::records::get_tagged;
use octets::sizes::{EVENT_SIZE, FIRST_OFFSET, KIND_OFFSET, SECOND_OFFSET, SENDER_OFFSET};
use octets::{bit_of, is_mark, tag_in};
use values::{Attribute, Entry, Event, Finish, Function, Happening, Tag};

// Kept (docs/DESIGN-PASS.md, 4): as in tasks.rt.
fn asked_from(a: u8) -> Option<Attribute>
    ensures { result ≡ asked_from a }
{
    attribute_fits(a).then_some(attribute_from(a))
}

fn command_from(n: u8, a: u8, b: u8, g: Tag) -> Option<Event>
    ensures { result ≡ command_from n a b g }
{
    (b < 4).then_some(Event::Command(Entry {
        nexus: n,
        asked: asked_from(a),
        naca: bit_of(b, 1),
        exempt: bit_of(b, 2),
        tag: g,
    }))
}

fn finish_from(a: u8) -> Option<Finish>
    ensures { result ≡ cond (eqb a 0x00 || eqb a 0x02 || eqb a 0x08 || eqb a 0x18) (Some (finish_from a)) None }
{
    match a {
        0x00 => Some(Finish::Good),
        0x02 => Some(Finish::CheckCondition),
        0x08 => Some(Finish::Busy),
        0x18 => Some(Finish::ReservationConflict),
        _ => None,
    }
}

fn completion_from(n: u8, a: u8, b: u8, g: Tag) -> Option<Event>
    ensures { result ≡ completion_from n a b g }
{
    let finish = finish_from(a)?;
    (b == 0).then_some(Event::Completion(n, g, finish))
}

fn function_from(a: u8, g: Tag) -> Function
    ensures { result ≡ function_from a g }
{
    match a {
        1 => Function::AbortTask(g),
        2 => Function::AbortTaskSet,
        3 => Function::ClearTaskSet,
        4 => Function::ClearAca,
        5 => Function::LogicalUnitReset,
        _ => Function::Unknown,
    }
}

fn management_from(n: u8, a: u8, b: u8, g: Tag) -> Option<Event>
    ensures { result ≡ management_from n a b g }
{
    ((b == 0) & ((a < 2) | (5 < a) | (g == 0))).then_some(Event::Management(n, function_from(a, g)))
}

// Power on and hard reset have no nexus.
fn happening_from(n: u8, a: u8) -> Option<Happening>
    ensures { result ≡ cond (eqb a 3 || (eqb n 0 && (eqb a 1 || eqb a 2))) (Some (happening_from n a)) None }
{
    match a {
        1 if n == 0 => Some(Happening::PowerOn),
        2 if n == 0 => Some(Happening::HardReset),
        3 => Some(Happening::NexusLoss(n)),
        _ => None,
    }
}

fn condition_from(n: u8, a: u8, b: u8, g: Tag) -> Option<Event>
    ensures { result ≡ condition_from n a b g }
{
    let happening = happening_from(n, a)?;
    ((b == 0) & (g == 0)).then_some(Event::Condition(happening))
}

#[tactic(auto, unfolding(crate::specs::Events::event_from))]
fn event_from(k: u8, n: u8, a: u8, b: u8, g: Tag) -> Option<Event>
    ensures { result ≡ event_from k n a b g }
{
    match k {
        1 => command_from(n, a, b, g),
        2 => completion_from(n, a, b, g),
        3 => management_from(n, a, b, g),
        4 => condition_from(n, a, b, g),
        _ => None,
    }
}

// Whatever the bytes and however many.
pub fn event_of(e: &[u8]) -> Option<Event>
    ensures { result ≡ event_of e.now }
{
    if e.len() != EVENT_SIZE {
        return None;
    }
    let r = get_tagged(e, 0);
    if !is_mark(r[0], r[1], 0x56) {
        return None;
    }
    event_from(
        r[KIND_OFFSET],
        r[SENDER_OFFSET],
        r[FIRST_OFFSET],
        r[SECOND_OFFSET],
        tag_in(r),
    )
}
