ghost use Rattle.std.specs.Prelude.{◌≡◌, ℕ, Bool};
ghost use Rattle.std.proofs.Common.{rules};
ghost use Rattle.orders.specs.Keyed.{by_key};

use crate::items::Numbered;
use crate::order::Order;

// An order by a key: the lower key goes first; of equal keys, the lower number.
pub trait Keyed {
    type Item: Numbered;

    ghost key: { Self.Item → ℕ };

    ghost precedes: { Self.Item → Self.Item → Bool };

    fn key(item: &Self::Item) -> u32
        ensures { result ≡ key item.now };

    ghost is_by_key: { precedes ≡ by_key key Self.Item.number };
}

impl<K: Keyed> Order for K {
    type Item = K::Item;

    ghost number = { λ _. K.Item.number };

    ghost precedes = { λ _. K.precedes };

    ghost ordered = { Prim.search rules };

    fn before(&self, a: &K::Item, b: &K::Item) -> bool {
        (K::key(a), a.number()) < (K::key(b), b.number())
    }
}
