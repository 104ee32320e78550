// The board of a market: what each maker offers on each side, and the best of a side.
#![tactic(auto)]

ghost use Rattle.std.specs.Prelude.{◌≡◌, ℕ, Bool, is_ok, if◌then◌else◌};
ghost use Rattle.terms.specs.BySide.{on_side};
ghost use Rattle.board.specs.Board.{Sides, Lawful, slot_of, may_put, put_answer, putting, lifting, may_take, take_answer, taking, clear, best, Best};

mod laws;
pub mod quote;
pub mod refusal;
mod slots;
pub mod sole;
pub mod suspended;
pub mod table;
#[cfg(test)]
mod tests;

pub use quote::{Quote, SideQuote};
pub use refusal::BoardRefusal;
pub use sole::Sole;
pub use suspended::Suspended;
pub use table::Table;
use terms::Side;

// Makers are numbered from 1 to 16, and each has at most one quote on a side.
pub trait Board {
    // Which makers may put quotes.
    ghost admitted: { Self → ℕ → Bool };

    // The quotes that stand.
    ghost sides: { Self → Sides };

    fn admits(&self, maker: u32) -> bool
        ensures answer { result ≡ admitted self.now maker }
        ensures lawful { Lawful (admitted self.now) (sides self.now) };

    // Whether a quote may be put: its maker is admitted, and its size is above 0.
    fn check(&self, quote: &Quote) -> Result<(), BoardRefusal>
        ensures answer { result ≡ put_answer (admitted self.now) quote.now }
        ensures lawful { Lawful (admitted self.now) (sides self.now) }
    {
        if !self.admits(quote.maker) {
            return Err(BoardRefusal::NotAdmitted);
        }
        if quote.size == 0 {
            return Err(BoardRefusal::NoSize);
        }
        Ok(())
    }

    // Puts a quote in place of its maker's old one, unless the maker is not admitted or the size is 0.
    fn put(&mut self, side: Side, quote: Quote) -> Result<(), BoardRefusal>
        ensures answer { result ≡ put_answer (admitted self.old) quote }
        ensures can { is_ok result ≡ may_put (admitted self.old) quote }
        ensures after { sides self.new ≡ (if is_ok result then putting side quote (sides self.old) else sides self.old) }
        ensures makers { admitted self.new ≡ admitted self.old }
        ensures lawful { Lawful (admitted self.new) (sides self.new) };

    // Lifts both quotes of a maker, if any stand.
    fn lift(&mut self, maker: u32)
        ensures after { sides self.new ≡ lifting maker (sides self.old) }
        ensures makers { admitted self.new ≡ admitted self.old }
        ensures lawful { Lawful (admitted self.new) (sides self.new) };

    fn best(&self, side: Side) -> Option<Quote>
        ensures answer { result ≡ best side (sides self.now) }
        ensures lawful { Lawful (admitted self.now) (sides self.now) }
        ensures law { Best side (on_side side (sides self.now)) result };

    // Takes a size from a maker's quote, unless there is none or it has less. A quote of size 0 is gone.
    fn take(&mut self, side: Side, maker: u32, size: u32) -> Result<(), BoardRefusal>
        ensures answer { result ≡ take_answer size (slot_of maker (on_side side (sides self.old))) }
        ensures can { is_ok result ≡ may_take size (slot_of maker (on_side side (sides self.old))) }
        ensures after { sides self.new ≡ (if is_ok result then taking side maker size (sides self.old) else sides self.old) }
        ensures makers { admitted self.new ≡ admitted self.old }
        ensures lawful { Lawful (admitted self.new) (sides self.new) };

    fn clear(&mut self)
        ensures after { sides self.new ≡ clear }
        ensures makers { admitted self.new ≡ admitted self.old }
        ensures lawful { Lawful (admitted self.new) (sides self.new) };

    // What holds of every board, whatever is done with it. Each call ensures it too, since a `dyn` has no law.
    ghost lawful: { (b : Self) → Lawful (admitted b) (sides b) };
}
