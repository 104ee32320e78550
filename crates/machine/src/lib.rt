// The words of the market: calls, tape lines and refusals. The machine that the market is compared with stands in specs/.
#![tactic(auto)]

pub mod words;

pub use words::{Call, Line, Refusal};
