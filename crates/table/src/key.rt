// What a table asks of its entries: each has a key, and any two keys compare.
ghost use Rattle.std.specs.Prelude.{◌≡◌};
ghost use Rattle.std.specs.declared.cmp.Ordering.TheVariants.{Less, Equal};
ghost use Rattle.std.specs.declared.cmp.Ordering.{Ordering};
ghost use Rattle.std.specs.Ordering.{ordering_reverse};

use std::cmp::Ordering;

// Keys with a total order, in which two keys may be equal and yet differ.
pub trait Ordered {
    ghost order: { Self → Self → Ordering };

    fn compare(&self, other: &Self) -> Ordering
        ensures { result ≡ order self.now other.now };

    ghost reverses: { (a b : Self) → order b a ≡ ordering_reverse (order a b) };

    ghost ascends: { (a b c : Self) → order a b ≡ Less → order b c ≡ Less → order a c ≡ Less };

    // Equal keys compare alike with every other key.
    ghost ties: { (a b c : Self) → order a b ≡ Equal → order a c ≡ order b c };
}

// Keys of which equal is the same key. The table's functions do not ask for it.
pub trait Exact: Ordered {
    ghost same: { (a b : Self) → Self.Ordered.order a b ≡ Equal → a ≡ b };
}

pub trait Entry {
    type Key: Ordered;

    ghost named: { Self → Self.Key };

    fn key(&self) -> &Self::Key
        ensures { result.now ≡ named self.now };
}
