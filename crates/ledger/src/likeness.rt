// Which rows of a kind count as alike.
ghost use Rattle.std.specs.Prelude.{◌≡◌, Bool, true};

/// A test of likeness that every row passes with itself.
pub trait Alike {
    // Whether one row is alike another.
    ghost alike: { Self → Self → Bool };

    // Each row is alike itself.
    ghost reflexive: { (x : Self) → alike x x ≡ true };

    /// Whether this row is alike the other.
    fn is_alike(&self, other: &Self) -> bool
        ensures { result ≡ alike self.now other.now };
}
