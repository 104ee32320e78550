// The slots of one side of the table.
ghost use Rattle.std.specs.Prelude.{◌≡◌, ◌<◌, is_ok, if◌then◌else◌, Some, None};
ghost use Rattle.board.specs.declared.quote.Quote.{Quote};
ghost use Rattle.board.specs.Board.{OwnSlots, slot_of, set_slot, no_quotes, take_answer, take_slot, first_quote, Best};

use crate::quote::Quote;
use crate::refusal::BoardRefusal;
use rank::first;
use terms::{MAKERS, Side, is_maker};

// Maker 1 comes first.
#[derive(Clone, Copy)]
pub(crate) struct Slots {
    pub(crate) quotes: [Option<Quote>; MAKERS],
    ghost own: { OwnSlots quotes },
}

impl Slots {
    pub(crate) fn new() -> Self
        ensures { result.quotes ≡ no_quotes }
    {
        Slots {
            quotes: [None; MAKERS],
        }
    }

    fn get(&self, maker: u32) -> Option<Quote>
        ensures { result ≡ slot_of maker self.now.quotes }
    {
        let place = maker.checked_sub(1)?;
        *self.quotes.get(place as usize)?
    }

    // Writes a maker's slot, if there is one: by place, since `get_mut` would nest two tests.
    fn set(&mut self, maker: u32, slot: Option<Quote>)
        requires own { (q : Quote) → slot ≡ Some q → q.maker ≡ maker }
        requires some { (q : Quote) → slot ≡ Some q → 0 < q.size }
        ensures { self.new.quotes ≡ set_slot maker slot self.old.quotes }
    {
        if is_maker(maker) {
            self.quotes[maker as usize - 1] = slot;
        }
    }

    pub(crate) fn put(&mut self, quote: Quote)
        requires { 0 < quote.size }
        ensures { self.new.quotes ≡ set_slot quote.maker (Some quote) self.old.quotes }
    {
        self.set(quote.maker, Some(quote));
    }

    pub(crate) fn lift(&mut self, maker: u32)
        ensures { self.new.quotes ≡ set_slot maker None self.old.quotes }
    {
        self.set(maker, None);
    }

    // Takes a size from a maker's quote, if it has that.
    pub(crate) fn take(&mut self, maker: u32, size: u32) -> Result<(), BoardRefusal>
        ensures answer { result ≡ take_answer size (slot_of maker self.old.quotes) }
        ensures left { self.new.quotes ≡ (if is_ok result then take_slot maker size self.old.quotes else self.old.quotes) }
    {
        let quote = self.get(maker).ok_or(BoardRefusal::NoQuote)?;
        self.set(maker, quote.taken(size)?);
        Ok(())
    }

    // The first by rank of the quotes.
    pub(crate) fn best(&self, side: Side) -> Option<Quote>
        ensures answer { result ≡ first_quote side self.now.quotes }
        ensures law { Best side self.now.quotes result }
    {
        let place = first(&self.quotes, side)?;
        self.quotes[place]
    }
}
