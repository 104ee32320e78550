use crate::fault::Fault;
use machine::Call;

// A call word.
#[derive(Clone, Copy, Debug, PartialEq, Eq)]
pub enum Word {
    TurnWord,
}

// A call and the line of the file that makes it.
#[derive(Clone, Copy)]
pub struct Numbered {
    pub line: u32,
    pub call: Call,
}

// The calls before the first fault, and the fault, if any. No `Result`: the calls before a fault are played too.
#[derive(Drop)]
pub struct Reading {
    pub calls: Vec<Numbered>,
    pub fault: Option<Fault>,
}
