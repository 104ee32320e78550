// Cuts a file into lines, and a line into fields.
ghost use Rattle.std.specs.Prelude.{◌≡◌, ◌<◌, ◌≤◌, ◌⊎◌, [], ◌∷◌, ◌++◌, map, length, IfOk, MatchOption};
ghost use Rattle.dayfile.specs.Text.{until, following, split, lines, fields, rows, place_of, places_of, Rejoins};

use crate::field::{Field, Row, Token};
use std::alloc::{AllocError, Global};
use terms::LONGEST_FILE;

// The fields of one line, which commas part.
#[tactic(auto, using(crate::proofs::Pieces::room_split))]
fn fields_of<'a>(heap: Global, bytes: &'a [u8], line: u32) -> Result<Vec<Field<'a>>, AllocError>
    requires { length bytes.now ≤ 65536 }
    ensures { IfOk result (λ v. map place_of v.items ≡ fields line bytes.now) }
{
    let mut out = Vec::new(heap);
    // moves on by a piece's length, so no count of the turns stands for it
    let mut column = 1;
    for piece in bytes.split(|b| *b == b',') {
        out.push(Field {
            token: Token::of(piece),
            line,
            column,
        })?;
        column += piece.len() as u32 + 1;
    }
    Ok(out)
}

// The first line without its byte 10, and what follows it.
#[tactic(auto, using(std::proofs::lemmas::List::Sums::position_or_len_is, std::proofs::lemmas::List::take_rest))]
pub fn first_line(bytes: &[u8]) -> (&[u8], &[u8])
    ensures line { result.0.now ≡ until 10 bytes.now }
    ensures rest { result.1.now ≡ following 10 bytes.now }
    ensures within { length result.0.now ≤ length bytes.now }
    ensures shorter { 0 < length bytes.now → length result.1.now < length bytes.now }
{
    match bytes.iter().position(|b| *b == b'\n') {
        Some(end) => (&bytes[..end], &bytes[end + 1..]),
        None => (bytes, &[]),
    }
}

// A file's lines with byte 10 between each two: an ending byte 10 starts no line.
fn without_end(file: &[u8]) -> &[u8]
    requires { 0 < length file.now }
    ensures lines { split 10 result.now ≡ lines file.now }
    ensures back { (result.now ≡ file.now) ⊎ (result.now ++ 10 ∷ [] ≡ file.now) }
    ensures within { length result.now ≤ length file.now }
{
    file.strip_suffix(b"\n").unwrap_or(file)
}

// The rows of a file, or None where it has more than 65,536 bytes.
pub fn rows_of<'a>(heap: Global, file: &'a [u8]) -> Result<Option<Vec<Row<'a>>>, AllocError>
    ensures { IfOk result (λ o. MatchOption o (65536 < length file.now) (λ v. (length file.now ≤ 65536) × (map places_of v.items ≡ rows file.now) × Rejoins (map places_of v.items) file.now)) }
{
    if file.len() > LONGEST_FILE {
        return Ok(None);
    }
    let mut out = Vec::new(heap);
    if file.is_empty() {
        return Ok(Some(out));
    }
    for (i, bytes) in without_end(file).split(|b| *b == b'\n').enumerate() {
        let fields = fields_of(heap, bytes, i as u32 + 1)?;
        out.push(Row { fields })?;
    }
    Ok(Some(out))
}
