// RULES 20.1 and 20.2: answers in their numbers, laid out as C reads them.
#![tactic(auto)]

ghost use Rattle.std.specs.Prelude.{◌≡◌};
ghost use Rattle.numbers.specs.Boundary.{numbers_of, turn_for};

use values::{Answer, Applied, Naming, Tag};

#[repr(C)]
#[derive(Clone, Copy, PartialEq, Eq)]
pub struct Answered {
    pub answer: u8,
    pub status: u8,
    pub key: u8,
    pub code: u8,
    pub qualifier: u8,
    pub ended: u8,
}

// Kept (docs/DESIGN-PASS.md, 1): the C interface; include/dedakhumi.h has `found` beside nexus and tag.
#[repr(C)]
#[derive(Clone, Copy, PartialEq, Eq)]
pub struct NamedTurn {
    pub answer: u8,
    pub found: bool,
    pub nexus: u8,
    pub tag: Tag,
}

fn only(answer: u8) -> Answered
    ensures { result ≡ record { answer = answer; status = 0; key = 0; code = 0; qualifier = 0; ended = 0 } }
{
    Answered {
        answer,
        status: 0,
        key: 0,
        code: 0,
        qualifier: 0,
        ended: 0,
    }
}

// What start and name answer, and apply where nothing ended.
impl From<Answer> for Answered {
    ghost from_gives = { λ a r. r ≡ numbers_of a 0 };

    fn from(a: Answer) -> Answered {
        match a {
            Answer::Done => only(0),
            Answer::BadTable => only(1),
            Answer::BadReport => only(2),
            Answer::BadEvent => only(3),
            Answer::NexusAboveSeven => only(4),
            Answer::NoSuchTask => only(5),
            Answer::NotEnabled => only(6),
            Answer::EndedAtEntry(status, sense) => Answered {
                status,
                key: sense.key,
                code: sense.code,
                qualifier: sense.qualifier,
                ..only(7)
            },
            Answer::Rejected => only(8),
            Answer::BadPolicy => only(9),
        }
    }
}

impl From<Applied> for Answered {
    ghost from_gives = { λ a r. r ≡ numbers_of a.answer a.ended };

    fn from(a: Applied) -> Answered {
        Answered {
            ended: a.ended,
            ..Answered::from(a.answer)
        }
    }
}

impl From<Naming> for NamedTurn {
    ghost from_gives = { λ n r. r ≡ turn_for n };

    fn from(n: Naming) -> NamedTurn {
        let answer = Answered::from(n.answer).answer;
        match n.turn {
            None => NamedTurn {
                answer,
                found: false,
                nexus: 0,
                tag: 0,
            },
            Some(x) => NamedTurn {
                answer,
                found: true,
                nexus: x.nexus,
                tag: x.tag,
            },
        }
    }
}
