//! Stands: a cell holds the number of its tram, and 0 where it is empty. T takes a tram, P puts one, L looks for one.

ghost use Rattle.std.specs.Prelude.{◌≡◌, cond, None, nat_eq};
ghost use Rattle.kinds.specs.Stands.{stand_rules, stand_rows, stand_knows, stand_act, takes, act_on, take_tram, put_tram, look_for_tram};
ghost use Rattle.yard.specs.Told.{effect};
ghost use Rattle.std.proofs.Common.{rules};

use yard::batch::Order;
use yard::cause::Cause;
use yard::kind::Kind;

pub struct Stands;

impl Kind for Stands {
    type Value = u16;

    const ROW_WORDS: usize = 2;

    ghost ROW_WORDS = { 2 };

    ghost rules = { stand_rules };

    ghost rows = { stand_rows };

    ghost row_words = { Prim.search rules };

    ghost equals = { nat_eq };

    ghost looks = { Prim.search rules };

    ghost equality = { Prim.search rules };

    ghost retells = { Prim.search rules };

    fn sheet_letter() -> char {
        'S'
    }

    fn unnamed() -> u16 {
        EMPTY
    }

    fn with_word(value: u16, place: usize, word: u16) -> Option<u16> {
        if word <= MOST { Some(word) } else { None }
    }

    fn word_at(value: u16, place: usize) -> u16 {
        value
    }

    fn equal(one: u16, other: u16) -> bool {
        one == other
    }

    fn has_letter(letter: char) -> bool {
        Act::of_letter(letter).is_some()
    }

    fn knows(order: Order) -> bool {
        Act::of_order(order).is_some()
    }

    fn writes(order: Order) -> bool {
        matches!(Act::of_letter(order.letter), Some(Act::Take | Act::Put))
    }

    fn apply(order: Order, value: u16) -> Option<Result<u16, Cause>> {
        let act = Act::of_order(order)?;
        Some(act.done(order.number, value))
    }
}

// a stand without a tram: 0 and no `None`, as sheets and listings have it
const EMPTY: u16 = 0;

// the highest number of a tram
const MOST: u16 = 9999;

// What an order does with a tram. Each kind has acts of its own: a trait over both would need a member and a law for each function here.
#[derive(Clone, Copy)]
enum Act {
    Take,
    Put,
    Look,
}

impl Act {
    fn of_letter(letter: char) -> Option<Act>
        ensures { result ≡ stand_act letter }
    {
        match letter {
            'T' => Some(Act::Take),
            'P' => Some(Act::Put),
            'L' => Some(Act::Look),
            _ => None,
        }
    }

    // What an order does that the kind knows.
    fn of_order(order: Order) -> Option<Act>
        ensures { result ≡ cond (stand_knows order.letter order.number) (stand_act order.letter) None }
    {
        Act::of_letter(order.letter).filter(|act| act.takes(order.number))
    }

    // Whether the number is in the range of the act.
    fn takes(self, number: u16) -> bool
        ensures { result ≡ takes self number }
    {
        match self {
            Act::Take | Act::Put => (1..=MOST).contains(&number),
            Act::Look => number <= MOST,
        }
    }

    // What the act makes of a stand.
    fn done(self, tram: u16, value: u16) -> Result<u16, Cause>
        ensures { effect result ≡ act_on self tram value }
    {
        match self {
            Act::Take => take(tram, value),
            Act::Put => put(tram, value),
            Act::Look => look(tram, value),
        }
    }
}

fn take(tram: u16, value: u16) -> Result<u16, Cause>
    ensures { effect result ≡ take_tram tram value }
{
    if value == tram {
        Ok(EMPTY)
    } else if value == EMPTY {
        Err(Cause::NoTram)
    } else {
        Err(Cause::OtherTram)
    }
}

fn put(tram: u16, value: u16) -> Result<u16, Cause>
    ensures { effect result ≡ put_tram tram value }
{
    if value == EMPTY {
        Ok(tram)
    } else {
        Err(Cause::StandTaken)
    }
}

fn look(tram: u16, value: u16) -> Result<u16, Cause>
    ensures { effect result ≡ look_for_tram tram value }
{
    if value == tram {
        Ok(value)
    } else {
        Err(Cause::NotAsLooked)
    }
}
