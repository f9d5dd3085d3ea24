// Up to ten facts in their order: what a line of the table needs.
ghost use Rattle.std.specs.Prelude.{◌≡◌, ◌≤◌, length};

use kb::axioms::Assertion;

/// At most ten facts: two classes and two for each of the four pairs that a key may have.
// No `ArrayVec`: `Facts` and `Rule` are `Copy`, and an `ArrayVec` is not.
#[derive(Clone, Copy)]
pub struct Facts {
    items: [Assertion; 10],
    len: usize,
    ghost full: { length items ≡ 10 },
    ghost within: { len ≤ 10 },
}

impl Facts {
    ghost use Rattle.std.specs.Prelude.{◌<◌, [], ◌∷◌, ◌++◌};
    ghost use Rattle.table.specs.FactLists.{facts_of};

    /// The facts of a list.
    pub(crate) fn of(list: &[Assertion]) -> Facts
        requires { length list.now ≤ 10 }
        ensures { facts_of result ≡ list.now }
    {
        let mut items = [Assertion::Unlisted(0); 10];
        items[..list.len()].copy_from_slice(list);
        Facts {
            items,
            len: list.len(),
        }
    }

    /// One fact more, behind the others.
    pub(crate) fn push(&mut self, a: Assertion)
        requires { length (facts_of self.old) < 10 }
        ensures { facts_of self.new ≡ facts_of self.old ++ a ∷ [] }
    {
        self.items[self.len] = a;
        self.len += 1;
    }

    /// The facts, first to last.
    pub fn all(&self) -> &[Assertion]
        ensures { result.now ≡ facts_of self.now }
    {
        &self.items[..self.len]
    }
}
