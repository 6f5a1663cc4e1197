// What a kind of element brings to be held in a table.
ghost use Rattle.std.specs.Prelude.{◌≡◌, Bool, true, false};

// A total order: `upto x y` says that x is not after y. Elements that are equals in it may differ. A kind owes the two
// laws, and the table rests on nothing else of it.
pub trait Ordered {
    ghost upto: { Self → Self → Bool };

    fn not_after(&self, other: &Self) -> bool
        ensures { result ≡ upto self.now other.now };

    ghost total: { (x y : Self) → upto x y ≡ false → upto y x ≡ true };

    ghost trans: { (x y z : Self) → upto x y ≡ true → upto y z ≡ true → upto x z ≡ true };
}
