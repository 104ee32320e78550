// The members' side of the market: orders, their rank, and what a book of them does.
#![tactic(auto)]

pub mod book;
mod ladder;
pub mod order;
pub mod refusal;
pub mod sorted;
#[cfg(test)]
mod tests;

pub use book::{Book, empty};
pub use order::{Kind, Order};
pub use refusal::BookRefusal;
pub use sorted::SortedBook;
