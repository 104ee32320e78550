ghost use Rattle.board.specs.Laws.{SlotLaws};

// What each call makes of the quotes, maker by maker. A function, since the check asks for what a contract says.
fn slot_laws_hold()
    ensures { SlotLaws }
{}
