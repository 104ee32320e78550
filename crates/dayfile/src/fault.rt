// Why a day file cannot be played to its end.
ghost use Rattle.std.specs.Prelude.{◌≡◌};
ghost use Rattle.dayfile.specs.Reading.{fault_number, fault_layer, fault_line, fault_column};

// A place struct for the two variants with line and column would only lengthen the patterns.
#[derive(Clone, Copy, Debug, PartialEq, Eq)]
pub enum Fault {
    // more than 65,536 bytes
    TooLong,
    // the first line is not the names line
    WrongNames,
    // a line without eleven fields
    FieldCount { line: u32 },
    UnknownCall { line: u32, column: u32 },
    // a field that is not 0 to 8 digits
    NotDigits { line: u32, column: u32 },
}

impl Fault {
    // No cast: three of the cases carry a place.
    pub fn number(&self) -> u32
        ensures { result ≡ fault_number self.now }
    {
        match self {
            Fault::TooLong => 21,
            Fault::WrongNames => 22,
            Fault::FieldCount { .. } => 23,
            Fault::UnknownCall { .. } => 24,
            Fault::NotDigits { .. } => 25,
        }
    }

    // The number that a fault row shows: 1 file, 2 line, 3 field.
    pub fn layer(&self) -> u32
        ensures { result ≡ fault_layer self.now }
    {
        match self {
            Fault::TooLong | Fault::WrongNames => 1,
            Fault::FieldCount { .. } => 2,
            Fault::UnknownCall { .. } | Fault::NotDigits { .. } => 3,
        }
    }

    pub fn line(&self) -> u32
        ensures { result ≡ fault_line self.now }
    {
        match *self {
            Fault::TooLong => 0,
            Fault::WrongNames => 1,
            Fault::FieldCount { line }
            | Fault::UnknownCall { line, .. }
            | Fault::NotDigits { line, .. } => line,
        }
    }

    // 0 but for a fault of a field.
    pub fn column(&self) -> u32
        ensures { result ≡ fault_column self.now }
    {
        match *self {
            Fault::UnknownCall { column, .. } | Fault::NotDigits { column, .. } => column,
            Fault::TooLong | Fault::WrongNames | Fault::FieldCount { .. } => 0,
        }
    }
}
