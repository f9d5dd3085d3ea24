// A base that asks whether a statement follows from the base below: it adds what denies the statement.
ghost use Rattle.std.specs.Prelude.{◌≡◌, ℕ, map, length, OnErr};
ghost use Rattle.kb.specs.Questions.{asking, denial, new_individuals};
ghost use Rattle.kb.specs.Telling.{tell_assertion};
ghost use Rattle.kb.specs.declared.statement.Statement.TheVariants.{Key as AskedKey};
ghost use Rattle.layers.specs.Growing.{StatementGrown};
ghost use Rattle.layers.specs.Owing.{asking_owed};
ghost use Rattle.rows.specs.Rows.{row_at};

use crate::behind::behind;
use crate::fault::LayerFault;
use crate::pairs::with_pair;
use kb::axioms::{Assertion, Inclusion, Key, RolePair, RolePairs};
use kb::base::Base;
use kb::counts::Counts;
use kb::lexicon::Entry;
use kb::names::{Concept, Individual};
use kb::statement::Statement;
use rows::RowFault;

/// A base, and the statement asked of it.
#[derive(Drop)]
pub struct Question<B> {
    below: B,
    statement: Statement,
}

// Row k of what denies a key over n individuals.
fn key_denial(
    n: u16,
    c: Concept,
    d: Concept,
    pairs: RolePairs,
    k: usize,
) -> Result<Assertion, RowFault>
    ensures { result ≡ row_at (map tell_assertion (denial n (AskedKey c d pairs))) k }
{
    let x = Individual(n);
    let y = Individual(n.saturating_add(1));
    // The first three by a match, not from a list: for each row of the base below row 0 is asked for here too, and not used.
    match k {
        0 => Ok(Assertion::Is(c, x)),
        1 => Ok(Assertion::Is(d, y)),
        2 => Ok(Assertion::Different(x, y)),
        _ => {
            // Each pair joins x and y, in a row of its own each, to a new individual z.
            let k = k - 3;
            let pair = rows::row(&pairs.list(), k / 2)?;
            let z = Individual(n.saturating_add(2 + (k / 2) as u16));
            if k % 2 == 0 {
                Ok(Assertion::Joins(pair.left, x, z))
            } else {
                Ok(Assertion::Joins(pair.right, y, z))
            }
        }
    }
}

// Row k of what denies a statement over n individuals.
fn denial_row(n: u16, statement: Statement, k: usize) -> Result<Assertion, RowFault>
    ensures { result ≡ row_at (map tell_assertion (denial n statement)) k }
{
    let x = Individual(n);
    match statement {
        Statement::Key(c, d, pairs) => key_denial(n, c, d, pairs, k),
        Statement::Inclusion(i) => rows::row(
            &[
                Assertion::Is(i.sub, x),
                Assertion::Is(i.sup.complement(), x),
            ],
            k,
        ),
        Statement::Same(a, b) => rows::row(&[Assertion::Different(a, b)], k),
    }
}

// How many individuals the denial of a statement adds.
fn new_individuals(statement: Statement) -> u16
    ensures { result ≡ new_individuals statement }
{
    match statement {
        Statement::Key(_, _, pairs) => 2 + pairs.list().len() as u16,
        Statement::Inclusion(_) => 1,
        Statement::Same(_, _) => 0,
    }
}

// How many assertions deny a statement, over any number of individuals.
fn denial_length(statement: Statement) -> u16
    ensures { (n : ℕ) → result ≡ length (denial n statement) }
{
    match statement {
        Statement::Key(_, _, pairs) => 3 + 2 * pairs.list().len() as u16,
        Statement::Inclusion(_) => 2,
        Statement::Same(_, _) => 1,
    }
}

impl<B: Base> Question<B> {
    /// The question whether a statement follows from the base below.
    pub fn new(below: B, statement: Statement) -> Question<B>
        ensures below { result.below ≡ below }
        ensures statement { result.statement ≡ statement }
    {
        Question { below, statement }
    }

    /// One pair more, behind those of the key that is asked.
    pub fn grow(&mut self, pair: RolePair) -> Result<(), LayerFault>
        ensures statement { StatementGrown pair self.old.statement result self.new.statement }
        ensures below { self.new.below ≡ self.old.below }
        ensures refused { OnErr result (self.new ≡ self.old) }
    {
        let Statement::Key(c, d, pairs) = self.statement else {
            return Err(LayerFault::Row(RowFault::NoSuchRow));
        };
        let more = with_pair(pairs, pair)?;
        self.statement = Statement::Key(c, d, more);
        Ok(())
    }
}

impl<B: Base> Base for Question<B> {
    ghost meaning = { λ q. asking (B.Base.meaning q.below) q.statement };

    ghost owed = { λ q. asking_owed (B.Base.meaning q.below) q.statement (B.Base.owed q.below) };

    fn counts(&self) -> Counts {
        let below = self.below.counts();
        Counts {
            individuals: below
                .individuals
                .saturating_add(new_individuals(self.statement)),
            assertions: below
                .assertions
                .saturating_add(denial_length(self.statement)),
            ..below
        }
    }

    fn entry(&self, n: usize) -> Result<Entry, RowFault> {
        self.below.entry(n)
    }

    fn assertion(&self, n: usize) -> Result<Assertion, RowFault> {
        let below = self.below.counts();
        let k = n.saturating_sub(usize::from(below.assertions));
        behind(
            n,
            self.below.assertion(n),
            denial_row(below.individuals, self.statement, k),
        )
    }

    fn inclusion(&self, n: usize) -> Result<Inclusion, RowFault> {
        self.below.inclusion(n)
    }

    fn key(&self, n: usize) -> Result<Key, RowFault> {
        self.below.key(n)
    }
}
