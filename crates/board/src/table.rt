// The board that admits every maker.
ghost use Rattle.std.specs.Prelude.{◌≡◌};
ghost use Rattle.terms.specs.Limits.{is_maker};
ghost use Rattle.board.specs.Board.{clear};

use crate::Board;
use crate::quote::Quote;
use crate::refusal::BoardRefusal;
use crate::slots::Slots;
use terms::{BySide, Side, is_maker};

#[derive(Clone, Copy)]
pub struct Table {
    slots: BySide<Slots>,
}

impl Table {
    ghost use Rattle.board.specs.Kinds.{table_sides};

    // No quote stands.
    pub fn new() -> Self
        ensures { table_sides result ≡ clear }
    {
        Table {
            slots: BySide {
                buy: Slots::new(),
                sell: Slots::new(),
            },
        }
    }
}

impl Board for Table {
    ghost use Rattle.board.specs.Kinds.{table_sides};

    ghost admitted = { λ _. is_maker };

    ghost sides = { table_sides };

    ghost lawful = { λ t. record { makers = λ m out. out; buys = t.slots.buy.own; sells = t.slots.sell.own } };

    fn admits(&self, maker: u32) -> bool {
        is_maker(maker)
    }

    fn put(&mut self, side: Side, quote: Quote) -> Result<(), BoardRefusal> {
        self.check(&quote)?;
        self.slots.on_mut(side).put(quote);
        Ok(())
    }

    fn lift(&mut self, maker: u32) {
        self.slots.buy.lift(maker);
        self.slots.sell.lift(maker);
    }

    fn best(&self, side: Side) -> Option<Quote> {
        self.slots.on(side).best(side)
    }

    fn take(&mut self, side: Side, maker: u32, size: u32) -> Result<(), BoardRefusal> {
        self.slots.on_mut(side).take(maker, size)
    }

    fn clear(&mut self) {
        self.slots.buy = Slots::new();
        self.slots.sell = Slots::new();
    }
}
