//! Reads many sheets, one to a line of standard input, and writes what reading each of them answers.
//!
//! In a line `/` stands for LF, `%` and two hexadecimal digits for a byte, and `<`, a number, `>` and a byte for so many of that byte.
//! A line that begins with `!` and one of `v`, `m`, `s` and `c` has the list of values, moves, steps or choices one entry short.

#![tactic(auto)]

use desk::lists::Desk;
use desk::lists::laying::lay_out;
use desk::lists::reading::read_onto;
use kinds::feeders::Feeders;
use kinds::stands::Stands;
use planner::kind::YardKind;
use planner::kind::choosing::kind_of;
use std::alloc::{AllocError, Global};
use text::slip::Slip;
use yard::full::{CELLS, CHOICES, MOVES, STEPS};
use yard::kind::Kind;

fn main(rt: HostRuntime) -> anyhow::Result<()> {
    run(&rt)
}

fn run(rt: &HostRuntime) -> anyhow::Result<()> {
    for line in rt.lines(rt.alloc()) {
        let line = line?;
        let (short, text) = match line.as_bytes() {
            [b'!', list, rest @ ..] => (Short::of_letter(*list), rest),
            text => (None, text),
        };
        let sheet = unfolded(rt.alloc(), text)?;
        match kind_of(&sheet) {
            YardKind::Stands => tell::<Stands>(rt, short, &sheet)?,
            YardKind::Feeders => tell::<Feeders>(rt, short, &sheet)?,
        }
    }
    Ok(())
}

/// The list that is one entry short.
#[derive(Clone, Copy)]
enum Short {
    Values,
    Moves,
    Steps,
    Choices,
}

impl Short {
    fn of_letter(letter: u8) -> Option<Short> {
        match letter {
            b'v' => Some(Short::Values),
            b'm' => Some(Short::Moves),
            b's' => Some(Short::Steps),
            b'c' => Some(Short::Choices),
            _ => None,
        }
    }

    // Takes the last entry from the list.
    fn shorten<V: Drop>(self, desk: &mut Desk<V>) {
        match self {
            Short::Values => desk.values.truncate(CELLS - 1),
            Short::Moves => desk.moves.truncate(MOVES - 1),
            Short::Steps => desk.steps.truncate(STEPS - 1),
            Short::Choices => desk.choices.truncate(CHOICES - 1),
        }
    }
}

// Reads one sheet and writes its counts or its slip.
fn tell<K: Kind>(rt: &HostRuntime, short: Option<Short>, sheet: &[u8]) -> anyhow::Result<()> {
    let mut desk = lay_out::<K>(rt.alloc())?;
    if let Some(short) = short {
        short.shorten(&mut desk);
    }
    match read_onto::<K>(sheet, &mut desk) {
        Ok(n) => println!(rt;
            "{} {} {} {} {} {}",
            n.cells, n.share, n.rows, n.moves, n.steps, n.choices
        )?,
        Err(fault) => println!(rt; "{}", Slip::from(fault))?,
    }
    Ok(())
}

// What the bytes of a line are read as.
#[derive(Clone, Copy)]
enum Reading {
    Text,
    // how many of the next byte
    Times,
    // a byte's two digits, and the first of them once it is read
    Code(Option<u8>),
}

// The bytes that a line stands for.
fn unfolded(heap: Global, text: &[u8]) -> Result<Vec<u8>, AllocError> {
    let mut sheet = Vec::new(heap);
    let mut reading = Reading::Text;
    let mut times: u32 = 0;
    for byte in text {
        reading = match (reading, byte) {
            (Reading::Times, b'0'..=b'9') => {
                times = times.wrapping_mul(10).wrapping_add(u32::from(*byte & 15));
                Reading::Times
            }
            (Reading::Times, _) => Reading::Text,
            (Reading::Code(None), digit) => Reading::Code(Some(hexadecimal(*digit))),
            (Reading::Code(Some(high)), digit) => {
                sheet.push(high << 4 | hexadecimal(*digit))?;
                Reading::Text
            }
            (Reading::Text, b'/') => {
                sheet.push(b'\n')?;
                Reading::Text
            }
            (Reading::Text, b'%') => Reading::Code(None),
            (Reading::Text, b'<') => {
                times = 0;
                Reading::Times
            }
            (Reading::Text, _) => {
                // a push for each: `resize` makes room of another size, and so fails where pushes do not
                for _ in 0..times.max(1) {
                    sheet.push(*byte)?;
                }
                times = 0;
                Reading::Text
            }
        };
    }
    Ok(sheet)
}

// The value of a digit, whose letters are small: `to_digit` would read capitals too.
fn hexadecimal(byte: u8) -> u8 {
    match byte {
        b'0'..=b'9' => byte - b'0',
        b'a'..=b'f' => byte - b'a' + 10,
        _ => 0,
    }
}
