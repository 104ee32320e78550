// Lists searched by rank: the place of the first entry, whatever kind of entry the list holds.
#![tactic(auto)]

ghost use Rattle.std.specs.Prelude.{◌≡◌, ℕ, Bool, true, false, not, map, Option, ◌≢◌};
ghost use Rattle.rank.specs.Firsts.{through, ahead, leader, first_place, Finds};
ghost use Rattle.std.specs.Option.{option_map};

pub mod price_time;

pub use price_time::PriceTime;

// An entry with a rank.
pub trait Ranked {
    // Whose entry it is.
    ghost identity: { Self → ℕ };

    ghost before: { Self → Self → Bool };

    fn precedes(&self, other: &Self) -> bool
        ensures { result ≡ before self.now other.now };

    ghost irreflexive: { (p : Self) → before p p ≡ false };

    ghost transitive: { (p q r : Self) → before p q ≡ true → before q r ≡ true → before p r ≡ true };

    ghost decided: { (p q : Self) → (identity p ≢ identity q) → before p q ≡ not (before q p) };
}

// An element of a list that is searched: the entry that takes part for what is picked, if any.
pub trait Slot {
    type Entry: Ranked + Drop;

    type Pick: Copy;

    ghost stands: { Self.Pick → Self → Option Self.Entry };

    fn standing(&self, pick: Self::Pick) -> Option<Self::Entry>
        ensures { result ≡ stands pick self.now };
}

// An empty slot holds nothing.
impl<S: Slot> Slot for Option<S> {
    type Entry = S::Entry;

    type Pick = S::Pick;

    ghost stands = { λ pick o. through (S.Slot.stands pick) o };

    fn standing(&self, pick: S::Pick) -> Option<S::Entry> {
        self.as_ref().and_then(|slot| slot.standing(pick))
    }
}

// The first so far, with its place, after one more slot.
fn next_best<E: Ranked + Drop>(
    best: Option<(usize, E)>,
    place: usize,
    next: Option<E>,
) -> Option<(usize, E)>
    ensures { result ≡ ahead E.Ranked.before best place next }
{
    match (best, next) {
        (best, None) => best,
        (None, Some(next)) => Some((place, next)),
        (Some((old, best)), Some(next)) => {
            if next.precedes(&best) {
                Some((place, next))
            } else {
                Some((old, best))
            }
        }
    }
}

// The first by rank of the entries that take part, with its place.
fn leader<S: Slot>(slots: &[S], pick: S::Pick) -> Option<(usize, S::Entry)>
    ensures first { result ≡ leader S.Entry.Ranked.before (map (S.Slot.stands pick) slots.now) }
    ensures law { Finds S.Entry.Ranked.before (map (S.Slot.stands pick) slots.now) (option_map (λ p. p.0) result) }
{
    // a `fold` was tried: it leaves both clauses open, and no short answer closes them
    let mut best = None;
    for (i, slot) in slots.iter().enumerate() {
        best = next_best(best, i, slot.standing(pick));
    }
    best
}

// The place of the first by rank of the entries that take part: the earliest in the list, where several are first.
pub fn first<S: Slot>(slots: &[S], pick: S::Pick) -> Option<usize>
    ensures place { result ≡ first_place S.Entry.Ranked.before (map (S.Slot.stands pick) slots.now) }
    ensures law { Finds S.Entry.Ranked.before (map (S.Slot.stands pick) slots.now) result }
{
    leader(slots, pick).map(|(place, _)| place)
}
