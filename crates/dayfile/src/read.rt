// Reads a day file.
ghost use Rattle.std.specs.Prelude.{◌≡◌, ◌<◌, ◌≤◌, map, length, IfOk};
ghost use Rattle.dayfile.specs.Text.{token_bytes, rows as rows_in, place_of, places_of};
ghost use Rattle.dayfile.specs.Reading.{call_word, value_on, number, numbers, call_from, or_unknown, call_fields, faulty, read_from, reading, read_of};

use crate::fault::Fault;
use crate::field::{Field, Row, Token};
use crate::reading::{Numbered, Reading, Word};
use crate::text::{first_line, rows_of};
use machine::Call;
use std::alloc::{AllocError, Global};

const NAMES: &[u8] = b"call,minute,party,kind,side,price,size,trigger,ask,asksize,number";

fn word_of(bytes: &[u8]) -> Option<Word>
    ensures { result ≡ call_word bytes.now }
{
    match bytes {
        b"turn" => Some(Word::TurnWord),
        _ => None,
    }
}

// The value of at most eight digits.
fn value_of(digits: &[u8]) -> u32
    requires { length digits.now ≤ 8 }
    ensures { result ≡ value_on 0 digits.now }
{
    digits
        .iter()
        .fold(0, |value, d| value * 10 + d.saturating_sub(b'0') as u32)
}

fn number_of(field: &Field<'_>) -> Result<u32, Fault>
    ensures { result ≡ number (place_of field.now) }
{
    match field.token {
        Token::Blank(_) => Ok(0),
        Token::Digits(digits) if digits.len() <= 8 => Ok(value_of(digits)),
        Token::Digits(_) | Token::Word(_) => Err(Fault::NotDigits {
            line: field.line,
            column: field.column,
        }),
    }
}

// How many numbers stand behind the call word.
const NUMBERS: usize = 10;

// The numbers of ten fields, or the leftmost fault. By place: `try_map` does not promise the leftmost, and over `iter_mut().zip(..)` the early return stayed open.
fn numbers_of(fields: &[Field<'_>; NUMBERS]) -> Result<[u32; NUMBERS], Fault>
    ensures { result ≡ numbers (map place_of fields.now) }
{
    let mut out = [0; NUMBERS];
    for (i, field) in fields.iter().enumerate() {
        out[i] = number_of(field)?;
    }
    Ok(out)
}

fn call_from_word(word: Word, values: [u32; NUMBERS]) -> Call
    ensures { result ≡ call_from word values }
{
    let [minute, ..] = values;
    match word {
        Word::TurnWord => Call::Turn { minute },
    }
}

// The call of a known word and the ten fields behind it; the leftmost fault counts.
fn call_in(word: &Field<'_>, rest: &[Field<'_>; NUMBERS]) -> Result<Call, Fault>
    ensures { result ≡ or_unknown (place_of word.now) (call_word (token_bytes word.now.token)) (numbers (map place_of rest.now)) }
{
    let unknown = Fault::UnknownCall {
        line: word.line,
        column: word.column,
    };
    let known = word_of(word.token.bytes()).ok_or(unknown)?;
    let values = numbers_of(rest)?;
    Ok(call_from_word(known, values))
}

// The call of a line, or its fault: first the count of the fields, then the leftmost.
fn call_of(fields: &[Field<'_>], line: u32) -> Result<Call, Fault>
    ensures { result ≡ call_fields line (map place_of fields.now) }
{
    let count = Fault::FieldCount { line };
    let (word, rest) = fields.split_first().ok_or(count)?;
    let Ok(rest) = <&[Field<'_>; NUMBERS]>::try_from(rest) else {
        return Err(count);
    };
    call_in(word, rest)
}

// The calls of the rows behind the names line, up to the first fault.
fn read_rows(heap: Global, rows: &[Row<'_>]) -> Result<Reading, AllocError>
    requires { length rows.now ≤ 65537 }
    ensures { IfOk result (λ x. read_of x ≡ read_from 2 (map places_of rows.now)) }
{
    let mut calls = Vec::new(heap);
    for (line, row) in (2..).zip(rows) {
        match call_of(row.fields.as_slice(), line) {
            Ok(call) => calls.push(Numbered { line, call })?,
            Err(fault) => {
                let fault = Some(fault);
                return Ok(Reading { calls, fault });
            }
        }
    }
    Ok(Reading { calls, fault: None })
}

// A file that a fault keeps from being read at all.
fn unread(heap: Global, fault: Fault) -> Reading
    ensures { read_of result ≡ faulty fault }
{
    Reading {
        calls: Vec::new(heap),
        fault: Some(fault),
    }
}

// The calls of the rows of a file, whose first must be the names line.
fn read_named(heap: Global, file: &[u8], rows: &[Row<'_>]) -> Result<Reading, AllocError>
    requires short { length file.now ≤ 65536 }
    requires cut { map places_of rows.now ≡ rows_in file.now }
    ensures { IfOk result (λ x. read_of x ≡ reading file.now) }
{
    let (first, _) = first_line(file);
    if first != NAMES {
        return Ok(unread(heap, Fault::WrongNames));
    }
    read_rows(heap, &rows[1..])
}

// Reads a whole file: the calls before the first fault, and the fault, if any.
pub fn read(heap: Global, file: &[u8]) -> Result<Reading, AllocError>
    ensures { IfOk result (λ x. read_of x ≡ reading file.now) }
{
    match rows_of(heap, file)? {
        Some(rows) => read_named(heap, file, rows.as_slice()),
        None => Ok(unread(heap, Fault::TooLong)),
    }
}
