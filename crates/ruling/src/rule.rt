// The ruling on an event, from the table's header and what searches over its bytes find.
ghost use Rattle.std.specs.Prelude.{◌≡◌, ◌≤◌, ◌<◌, drop};
ghost use Rattle.octets.specs.Sizes.{tasks_at};
ghost use Rattle.rules.specs.Tasks.{places, nexuses};
ghost use Rattle.rules.specs.Rules.{nexus_of};
ghost use Rattle.records.specs.Tables.{tasks_from};
ghost use Rattle.ruling.specs.Deciding.{has_aca, pending_at, searched_ruling};

use decide::fates::same_task;
use decide::turns::{aca_task, is_named};
use endings::complete;
use find::{search, turn_in};
use judge::entry::enter;
use manage::{happen, manage};
use octets::sizes::{NEXUS_SIZE, PENDINGS_AT, Table};
use records::nexus::pending_from;
use values::{Entry, Event, Finish, Happening, Header, Pending, Ruling, Tag};

fn has_aca(t: &Table, n: usize, aca: Option<u8>) -> bool
    requires { n ≤ places }
    ensures { result ≡ has_aca aca (tasks_from n (drop tasks_at t.now)) }
{
    match aca {
        None => false,
        Some(_) => search(t, n, aca_task).is_some(),
    }
}

fn pending_at(t: &Table, n: u8) -> Pending
    requires { n < nexuses }
    ensures { result ≡ pending_at t.now n }
{
    pending_from(t[PENDINGS_AT + NEXUS_SIZE * (n as usize)])
}

fn rule_command(t: &Table, h: Header, c: Entry) -> Ruling
    requires { (h.count ≤ places) × (c.nexus < nexuses) }
    ensures { result ≡ searched_ruling t.now h (Event.Command c) (tasks_from h.count (drop tasks_at t.now)) }
{
    let n = h.count as usize;
    let aca_here = has_aca(t, n, h.aca);
    let here = search(t, n, |k| same_task(c.nexus, c.tag, k)).is_some();
    enter(h, c, here, aca_here, pending_at(t, c.nexus))
}

fn rule_completion(t: &Table, h: Header, nexus: u8, g: Tag, f: Finish) -> Ruling
    requires { h.count ≤ places }
    ensures { result ≡ searched_ruling t.now h (Event.Completion nexus g f) (tasks_from h.count (drop tasks_at t.now)) }
{
    let n = h.count as usize;
    let named = is_named(nexus, g, turn_in(t, n, h.aca, h.run));
    let found = search(t, n, |k| same_task(nexus, g, k));
    complete(h, found, f, named)
}

#[tactic(auto, unfolding(crate::specs::Deciding::searched_ruling))]
pub fn rule(t: &Table, h: Header, e: Event) -> Ruling
    requires { (h.count ≤ places) × (nexus_of e < nexuses) }
    ensures { result ≡ searched_ruling t.now h e (tasks_from h.count (drop tasks_at t.now)) }
{
    match e {
        Event::Command(c) => rule_command(t, h, c),
        Event::Completion(n, g, f) => rule_completion(t, h, n, g, f),
        Event::Management(n, f) => manage(h, n, f),
        Event::Condition(c) => happen(h, c),
    }
}

// Of power on and hard reset 0.
pub fn nexus_of(e: Event) -> u8
    ensures { result ≡ nexus_of e }
{
    match e {
        Event::Command(c) => c.nexus,
        Event::Completion(n, _, _)
        | Event::Management(n, _)
        | Event::Condition(Happening::NexusLoss(n)) => n,
        Event::Condition(_) => 0,
    }
}
