// The board of one maker.
ghost use Rattle.std.specs.Prelude.{◌≡◌, ◌==◌, false, Some};
ghost use Rattle.terms.specs.BySide.{on_side, with_side};
ghost use Rattle.terms.specs.declared.side.Side.{Side};
ghost use Rattle.board.specs.declared.quote.Quote.{Quote};
ghost use Rattle.board.specs.Board.{OfMaker, Lawful, slot_of, set_slot, lifting, clear};

use crate::Board;
use crate::quote::Quote;
use crate::refusal::BoardRefusal;
use terms::{BySide, Side, is_maker};

// Admits the maker alone, or nobody if there is no maker of that number.
#[derive(Clone, Copy)]
pub struct Sole {
    maker: u32,
    quotes: BySide<Option<Quote>>,
    ghost own: { (side : Side) → OfMaker maker (on_side side quotes) },
}

impl Sole {
    ghost use Rattle.board.specs.Kinds.{sole_admits, sole_sides};

    // No quote stands.
    pub fn new(maker: u32) -> Self
        ensures maker { result.maker ≡ maker }
        ensures sides { sole_sides result ≡ clear }
    {
        Sole {
            maker,
            quotes: BySide {
                buy: None,
                sell: None,
            },
        }
    }

    // Whether a number is that of its maker; another has no quotes.
    fn owns(&self, number: u32) -> bool
        ensures answer { result ≡ (number == self.now.maker) }
        ensures others { result ≡ false → lifting number (sole_sides self.now) ≡ sole_sides self.now }
        ensures lawful { Lawful (sole_admits self.now) (sole_sides self.now) }
    {
        number == self.maker
    }

    // A maker's quote on a side: another than the board's has none.
    #[tactic(auto, using(crate::proofs::Soles::found_in))]
    fn get(&self, side: Side, maker: u32) -> Option<Quote>
        ensures answer { result ≡ slot_of maker (on_side side (sole_sides self.now)) }
        ensures own { (q : Quote) → result ≡ Some q → maker ≡ self.now.maker }
        ensures quote { OfMaker maker result }
        ensures lawful { Lawful (sole_admits self.now) (sole_sides self.now) }
    {
        self.quotes.on(side).filter(|quote| quote.maker == maker)
    }

    // Writes its maker's slot.
    #[tactic(auto, using(crate::proofs::Soles::one_written))]
    fn set(&mut self, side: Side, slot: Option<Quote>)
        requires { OfMaker self.old.maker slot }
        ensures after { sole_sides self.new ≡ with_side side (set_slot self.old.maker slot (on_side side (sole_sides self.old))) (sole_sides self.old) }
        ensures maker { self.new.maker ≡ self.old.maker }
        ensures makers { sole_admits self.new ≡ sole_admits self.old }
        ensures lawful { Lawful (sole_admits self.new) (sole_sides self.new) }
    {
        *self.quotes.on_mut(side) = slot;
    }
}

impl Board for Sole {
    ghost use Rattle.board.specs.Kinds.{sole_admits, sole_sides};
    ghost use Rattle.board.specs.Lawfuls.{sole_lawful};

    ghost admitted = { sole_admits };

    ghost sides = { sole_sides };

    ghost lawful = { λ b. sole_lawful b.maker b.quotes b.own };

    fn admits(&self, maker: u32) -> bool {
        self.owns(maker) && is_maker(maker)
    }

    fn put(&mut self, side: Side, quote: Quote) -> Result<(), BoardRefusal> {
        self.check(&quote)?;
        self.set(side, Some(quote));
        Ok(())
    }

    fn lift(&mut self, maker: u32) {
        if self.owns(maker) {
            self.set(Side::Buy, None);
            self.set(Side::Sell, None);
        }
    }

    #[tactic(auto, using(crate::proofs::Soles::one_best))]
    fn best(&self, side: Side) -> Option<Quote> {
        *self.quotes.on(side)
    }

    fn take(&mut self, side: Side, maker: u32, size: u32) -> Result<(), BoardRefusal> {
        let quote = self.get(side, maker).ok_or(BoardRefusal::NoQuote)?;
        if quote.size < size {
            return Err(BoardRefusal::TooLarge);
        }
        self.set(side, quote.less(size));
        Ok(())
    }

    fn clear(&mut self) {
        *self = Sole::new(self.maker);
    }
}
