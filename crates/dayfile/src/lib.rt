// Day files: bytes to calls or a fault, and the text of the tape.
#![tactic(auto)]

pub mod fault;
pub mod field;
pub mod print;
pub mod read;
pub mod reading;
pub mod text;

pub use fault::Fault;
pub use field::{Field, Row, Token};
pub use reading::{Numbered, Reading};
