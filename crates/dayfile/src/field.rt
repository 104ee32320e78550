// The fields of a day file.
ghost use Rattle.std.specs.Prelude.{◌≡◌};
ghost use Rattle.dayfile.specs.Text.{all_digits, kind_of, token_kind, token_bytes};

// What a field of a day file holds, as a part of the file's own bytes: each case is read in its own way.
#[derive(Clone, Copy, Debug)]
pub enum Token<'a> {
    Word(&'a [u8]),
    Digits(&'a [u8]),
    Blank(&'a [u8]),
}

// A field and where its first byte stands, line and column counted from 1.
#[derive(Clone, Copy, Debug)]
pub struct Field<'a> {
    pub token: Token<'a>,
    pub line: u32,
    pub column: u32,
}

// The fields of one line.
#[derive(Drop)]
pub struct Row<'a> {
    pub fields: Vec<Field<'a>>,
}

fn only_digits(bytes: &[u8]) -> bool
    ensures { result ≡ all_digits bytes.now }
{
    bytes.iter().all(|b| b.is_ascii_digit())
}

impl<'a> Token<'a> {
    // Blank with no bytes, digits with digits alone, else a word. A `From` would say no more, in one unnamed clause.
    pub fn of(bytes: &'a [u8]) -> Self
        ensures kind { token_kind result ≡ kind_of bytes.now }
        ensures bytes { token_bytes result ≡ bytes.now }
    {
        if bytes.is_empty() {
            Token::Blank(bytes)
        } else if only_digits(bytes) {
            Token::Digits(bytes)
        } else {
            Token::Word(bytes)
        }
    }

    pub fn bytes(&self) -> &'a [u8]
        ensures { result.now ≡ token_bytes self.now }
    {
        match self {
            Token::Word(bytes) | Token::Digits(bytes) | Token::Blank(bytes) => bytes,
        }
    }
}
