// Whether a test passes at some item of a slice, or at every one, where the test is a type of its own, with whatever it compares
// items to. What the items are about does not belong here. Inside this repository tests are closures, and the scans are the
// library's.
#![tactic(auto)]

ghost use Rattle.std.specs.List.{list_all, list_any};
ghost use Rattle.std.specs.Prelude.{◌≡◌, Bool};

/// A yes-or-no test of items, with whatever it compares them to.
pub trait Test<T> {
    // Which items pass.
    ghost test: { Self → T → Bool };

    /// Whether the item passes.
    fn passes(&self, item: &T) -> bool
        ensures { result ≡ test self.now item.now };
}

/// Whether some item passes.
pub fn some_passes<T, F: Test<T>>(test: &F, items: &[T]) -> bool
    ensures { result ≡ list_any (F.Test.test test.now) items.now }
{
    items.iter().any(|item| test.passes(item))
}

/// Whether every item passes.
pub fn every_passes<T, F: Test<T>>(test: &F, items: &[T]) -> bool
    ensures { result ≡ list_all (F.Test.test test.now) items.now }
{
    items.iter().all(|item| test.passes(item))
}
