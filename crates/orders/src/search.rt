ghost use Rattle.std.specs.Prelude.{◌≡◌, ℕ, Option as Maybe};
ghost use Rattle.orders.specs.Orders.{Apart, IsFirst, first_below};

use crate::order::Order;

// Whoever has items for the search. The places below the count are asked one by one, and each has an item or none.
// No `Iterator`, since whoever searches through one has to require that it may be asked, and that it ends.
pub trait Candidates {
    type Item;

    ghost places: { Self → ℕ };

    ghost candidate_at: { Self → ℕ → Maybe Self.Item };

    fn count(&self) -> usize
        ensures { result ≡ places self.now };

    fn candidate(&self, place: usize) -> Option<Self::Item>
        ensures { result ≡ candidate_at self.now place };
}

// The candidate that precedes all others, or none where there is none.
pub fn first<O: Order, C: Candidates<Item = O::Item>>(order: &O, from: &C) -> Option<O::Item>
where
    O::Item: Copy,
    ensures value { result ≡ first_below (O.precedes order.now) (C.candidate_at from.now) (C.places from.now) }
    ensures first { Apart (O.number order.now) (C.candidate_at from.now) (C.places from.now) → IsFirst (O.precedes order.now) (C.candidate_at from.now) (C.places from.now) result }
{
    (0..from.count())
        .filter_map(|place| from.candidate(place))
        .reduce(|best, item| if order.before(&item, &best) {
            item
        } else {
            best
        })
}
