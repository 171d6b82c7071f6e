//! Feeders: a section holds a load and a limit in amperes. A adds load, S sheds it, H looks for headroom.

ghost use Rattle.std.specs.Prelude.{◌≡◌, cond, None};
ghost use Rattle.kinds.specs.Feeders.{feeder_rules, feeder_rows, feeder_knows, feeder_act, takes, act_on, same_section, raised_section, lowered_section};
ghost use Rattle.yard.specs.Told.{effect};
ghost use Rattle.std.proofs.Common.{rules};

use yard::batch::Order;
use yard::cause::Cause;
use yard::kind::Kind;

/// What a feeder section holds. The load may stand above the limit.
#[derive(Clone, Copy, Debug, PartialEq)]
pub struct Section {
    pub load: u16,
    pub limit: u16,
}

pub struct Feeders;

impl Kind for Feeders {
    type Value = Section;

    const ROW_WORDS: usize = 3;

    ghost ROW_WORDS = { 3 };

    ghost rules = { feeder_rules };

    ghost rows = { feeder_rows };

    ghost equals = { same_section };

    ghost row_words = { Prim.search rules };

    ghost looks = { Prim.search rules };

    ghost equality = { Prim.search rules };

    ghost retells = { Prim.search rules };

    fn sheet_letter() -> char {
        'F'
    }

    fn unnamed() -> Section {
        Section { load: 0, limit: 0 }
    }

    fn with_word(value: Section, place: usize, word: u16) -> Option<Section> {
        if word > MOST {
            return None;
        }
        match place {
            1 => Some(Section {
                load: word,
                ..value
            }),
            _ => Some(Section {
                limit: word,
                ..value
            }),
        }
    }

    fn word_at(value: Section, place: usize) -> u16 {
        match place {
            1 => value.load,
            _ => value.limit,
        }
    }

    fn equal(one: Section, other: Section) -> bool {
        one == other
    }

    fn has_letter(letter: char) -> bool {
        Act::of_letter(letter).is_some()
    }

    fn knows(order: Order) -> bool {
        Act::of_order(order).is_some()
    }

    fn writes(order: Order) -> bool {
        matches!(Act::of_letter(order.letter), Some(Act::Add | Act::Shed))
    }

    fn apply(order: Order, value: Section) -> Option<Result<Section, Cause>> {
        let act = Act::of_order(order)?;
        Some(act.done(order.number, value))
    }
}

// the highest number of amperes in a sheet
const MOST: u16 = 4000;

// What an order does with a load. Each kind has acts of its own: a trait over both would need a member and a law for each function here.
#[derive(Clone, Copy)]
enum Act {
    Add,
    Shed,
    Look,
}

impl Act {
    fn of_letter(letter: char) -> Option<Act>
        ensures { result ≡ feeder_act letter }
    {
        match letter {
            'A' => Some(Act::Add),
            'S' => Some(Act::Shed),
            'H' => Some(Act::Look),
            _ => None,
        }
    }

    // What an order does that the kind knows.
    fn of_order(order: Order) -> Option<Act>
        ensures { result ≡ cond (feeder_knows order.letter order.number) (feeder_act order.letter) None }
    {
        Act::of_letter(order.letter).filter(|act| act.takes(order.number))
    }

    // Whether the number is in the range of the act.
    fn takes(self, number: u16) -> bool
        ensures { result ≡ takes self number }
    {
        match self {
            Act::Add | Act::Shed => (1..=MOST).contains(&number),
            Act::Look => number <= MOST,
        }
    }

    // What the act makes of a section.
    fn done(self, amperes: u16, section: Section) -> Result<Section, Cause>
        ensures { effect result ≡ act_on self amperes section }
    {
        match self {
            Act::Add => section.raised(amperes).ok_or(Cause::AboveLimit),
            Act::Shed => section.lowered(amperes).ok_or(Cause::BelowZero),
            Act::Look => section
                .raised(amperes)
                .and(Some(section))
                .ok_or(Cause::NoHeadroom),
        }
    }
}

impl Section {
    // With so many amperes more, if that is within the limit.
    fn raised(self, amperes: u16) -> Option<Section>
        ensures { result ≡ raised_section amperes self }
    {
        let load = self.load.checked_add(amperes)?;
        if load <= self.limit {
            Some(Section { load, ..self })
        } else {
            None
        }
    }

    // With so many amperes less.
    fn lowered(self, amperes: u16) -> Option<Section>
        ensures { result ≡ lowered_section amperes self }
    {
        let load = self.load.checked_sub(amperes)?;
        Some(Section { load, ..self })
    }
}
