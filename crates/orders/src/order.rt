ghost use Rattle.std.specs.Prelude.{◌≡◌, ℕ, Bool};
ghost use Rattle.orders.specs.Orders.{Ordered};

// Says which of two items precedes the other. Each item has a number.
pub trait Order {
    type Item;

    ghost number: { Self → Self.Item → ℕ };

    ghost precedes: { Self → Self.Item → Self.Item → Bool };

    fn before(&self, a: &Self::Item, b: &Self::Item) -> bool
        ensures { result ≡ precedes self.now a.now b.now };

    ghost ordered: { (s : Self) → Ordered (number s) (precedes s) };
}
