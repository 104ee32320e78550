// The text of tape lines and faults.
ghost use Rattle.std.specs.Prelude.{◌≡◌, ℕ, ◌<◌, List, ◌∷◌, IfOk, Some, string_bytes};
ghost use Rattle.dayfile.specs.Print.{columns, letter_of, line_row, fault_row, refusal_row};

use crate::fault::Fault;
use machine::{Line, Refusal};
use std::alloc::{AllocError, Global};
use std::fmt;
use std::marker::Model;

// A row of the tape: a letter and six numbers, which stand for the bytes that it shows.
#[derive(Drop)]
pub struct TapeRow {
    letter: char,
    numbers: [u32; 6],
}

impl Model for TapeRow {
    ghost Value = { List ℕ };

    ghost view = { λ r. r.letter ∷ columns r.numbers };

    ghost invariant = { λ r. r.letter < 128 };
}

impl fmt::Display for TapeRow {
    ghost output = { λ r. Some r };

    fn fmt<W: fmt::Write>(&self, f: &mut fmt::Formatter<W>) -> fmt::Result {
        write!(f, "{}", self.letter)?;
        for n in &self.numbers {
            write!(f, ",{n}")?;
        }
        writeln!(f)
    }
}

// The letter of a line's kind, which a stored line holds as a number.
pub fn letter(kind: u8) -> char
    ensures { result ≡ letter_of kind }
{
    match kind {
        1 => 'T',
        2 => 'Q',
        3 => 'A',
        4 => 'W',
        5 => 'F',
        6 => 'C',
        7 => 'X',
        8 => 'L',
        _ => '?',
    }
}

impl From<&Line> for TapeRow {
    ghost from_gives = { λ line r. r ≡ line_row line.now };

    fn from(line: &Line) -> Self {
        TapeRow {
            letter: letter(line.kind),
            numbers: [
                line.number,
                line.party,
                line.side as u32,
                line.price,
                line.size,
                line.moment,
            ],
        }
    }
}

impl From<&Fault> for TapeRow {
    ghost from_gives = { λ fault r. r ≡ fault_row fault.now };

    fn from(fault: &Fault) -> Self {
        TapeRow {
            letter: 'E',
            numbers: [
                fault.number(),
                fault.layer(),
                fault.line(),
                fault.column(),
                0,
                0,
            ],
        }
    }
}

impl TapeRow {
    // A refusal of the market stands in layer 4, at the line of its call.
    pub fn refused(why: &Refusal, line: u32) -> Self
        ensures { result ≡ refusal_row why.now line }
    {
        TapeRow {
            letter: 'E',
            numbers: [why.number(), 4, line, 0, 0, 0],
        }
    }
}

// The text of a row alone, of each kind of row: a caller has no need of the row then.
pub fn line_text(heap: Global, line: &Line) -> Result<String, AllocError>
    ensures { IfOk result (λ t. string_bytes t ≡ line_row line.now) }
{
    TapeRow::from(line).to_string(heap)
}

pub fn fault_text(heap: Global, fault: &Fault) -> Result<String, AllocError>
    ensures { IfOk result (λ t. string_bytes t ≡ fault_row fault.now) }
{
    TapeRow::from(fault).to_string(heap)
}

pub fn refusal_text(heap: Global, refusal: &Refusal, line: u32) -> Result<String, AllocError>
    ensures { IfOk result (λ t. string_bytes t ≡ refusal_row refusal.now line) }
{
    TapeRow::refused(refusal, line).to_string(heap)
}
