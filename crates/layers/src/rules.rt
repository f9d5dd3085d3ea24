// A base with inclusions and keys of its own behind those of the base below.
ghost use Rattle.kb.specs.Telling.{tell_inclusion, tell_key};
ghost use Rattle.kb.specs.declared.axioms.Key.TheVariants.{Link};
ghost use Rattle.kb.specs.declared.axioms.RolePairs.TheVariants.{One};
ghost use Rattle.layers.specs.Growing.{KeyGrown};
ghost use Rattle.layers.specs.Layers.{rules_meaning};
ghost use Rattle.layers.specs.Owing.{rules_owed};
ghost use Rattle.layers.specs.Tables.{OneMore};
ghost use Rattle.layers.specs.Views.{link_of, own_inclusions, own_keys};
ghost use Rattle.rows.specs.Rows.{row_at};
ghost use Rattle.std.specs.Prelude.{◌≡◌, [], map, OnErr};

use crate::behind::behind;
use crate::fault::LayerFault;
use crate::pairs::with_pair;
use crate::table::add_row;
use arrayvec::ArrayVec;
use kb::axioms::{Assertion, Inclusion, Key, RolePair, RolePairs};
use kb::base::Base;
use kb::counts::Counts;
use kb::lexicon::Entry;
use kb::names::Concept;
use rows::RowFault;

/// A key of a layer: two classes and one to four pairs.
#[derive(Clone, Copy, Debug, PartialEq, Eq)]
pub(crate) struct LinkKey {
    first: Concept,
    second: Concept,
    pairs: RolePairs,
}

/// What stands in the unused places of a layer.
///
/// Written by hand: RolePairs has no default to derive it from, as a key has one to four pairs.
impl Default for LinkKey {
    fn default() -> LinkKey {
        LinkKey {
            first: Concept::default(),
            second: Concept::default(),
            pairs: RolePairs::One(RolePair::default()),
        }
    }
}

/// A key of the layer, told as a key of a base.
impl From<LinkKey> for Key {
    ghost from_gives = { λ key r. r ≡ tell_key (link_of key) };

    fn from(key: LinkKey) -> Key {
        Key::Link(key.first, key.second, key.pairs)
    }
}

/// A base, with up to 32 inclusions and 8 keys of the layer's own.
#[derive(Drop)]
pub struct Rules<B> {
    below: B,
    inclusions: ArrayVec<Inclusion, 32>,
    keys: ArrayVec<LinkKey, 8>,
}

impl<B: Base> Rules<B> {
    /// A layer without rows of its own.
    pub fn new(below: B) -> Rules<B>
        ensures below { result.below ≡ below }
        ensures inclusions { own_inclusions result ≡ [] }
        ensures keys { own_keys result ≡ [] }
    {
        Rules {
            below,
            inclusions: ArrayVec::new(),
            keys: ArrayVec::new(),
        }
    }

    /// One inclusion more, behind the layer's own. The answer is its number among them, from 0.
    pub fn add_inclusion(&mut self, inclusion: Inclusion) -> Result<usize, LayerFault>
        ensures inclusions { OneMore 32 inclusion (own_inclusions self.old) result (own_inclusions self.new) }
        ensures keys { own_keys self.new ≡ own_keys self.old }
        ensures below { self.new.below ≡ self.old.below }
        ensures refused { OnErr result (self.new ≡ self.old) }
    {
        add_row(&mut self.inclusions, inclusion)
    }

    /// One key more, with one pair, behind the layer's own. The answer is its number among them, from 0.
    pub fn add_key(
        &mut self,
        first: Concept,
        second: Concept,
        pair: RolePair,
    ) -> Result<usize, LayerFault>
        ensures keys { OneMore 8 (Link first second (One pair)) (own_keys self.old) result (own_keys self.new) }
        ensures inclusions { own_inclusions self.new ≡ own_inclusions self.old }
        ensures below { self.new.below ≡ self.old.below }
        ensures refused { OnErr result (self.new ≡ self.old) }
    {
        let key = LinkKey {
            first,
            second,
            pairs: RolePairs::One(pair),
        };
        add_row(&mut self.keys, key)
    }

    /// One pair more, behind those of the layer's own key of this number.
    pub fn grow_key(&mut self, number: usize, pair: RolePair) -> Result<(), LayerFault>
        ensures keys { KeyGrown number pair (own_keys self.old) result (own_keys self.new) }
        ensures inclusions { own_inclusions self.new ≡ own_inclusions self.old }
        ensures below { self.new.below ≡ self.old.below }
        ensures refused { OnErr result (self.new ≡ self.old) }
    {
        let key = rows::row(&self.keys, number)?;
        let pairs = with_pair(key.pairs, pair)?;
        self.keys[number] = LinkKey { pairs, ..key };
        Ok(())
    }

    // Inclusion k of the layer's own. The answer is unpacked and made anew: that numbers have 16 bits is known of a row, and
    // not of the answer that holds it.
    #[tactic(auto, using(rows::proofs::RowLaws::row_at_mapped))]
    fn own_inclusion(&self, k: usize) -> Result<Inclusion, RowFault>
        ensures { result ≡ row_at (map tell_inclusion (own_inclusions self.now)) k }
    {
        Ok(rows::row(&self.inclusions, k)?)
    }

    // Key k of the layer's own.
    #[tactic(auto, using(rows::proofs::RowLaws::row_at_mapped_twice))]
    fn own_key(&self, k: usize) -> Result<Key, RowFault>
        ensures { result ≡ row_at (map tell_key (own_keys self.now)) k }
    {
        rows::row(&self.keys, k).map(Key::from)
    }
}

impl<B: Base> Base for Rules<B> {
    ghost meaning = { λ l. rules_meaning (B.Base.meaning l.below) (own_inclusions l) (own_keys l) };

    ghost owed = { λ l. rules_owed (B.Base.meaning l.below) (own_inclusions l) (own_keys l) (B.Base.owed l.below) };

    fn counts(&self) -> Counts {
        let below = self.below.counts();
        Counts {
            inclusions: below
                .inclusions
                .saturating_add(self.inclusions.len() as u16),
            keys: below.keys.saturating_add(self.keys.len() as u16),
            ..below
        }
    }

    fn entry(&self, n: usize) -> Result<Entry, RowFault> {
        self.below.entry(n)
    }

    fn assertion(&self, n: usize) -> Result<Assertion, RowFault> {
        self.below.assertion(n)
    }

    fn inclusion(&self, n: usize) -> Result<Inclusion, RowFault> {
        let k = n.saturating_sub(usize::from(self.below.counts().inclusions));
        behind(n, self.below.inclusion(n), self.own_inclusion(k))
    }

    fn key(&self, n: usize) -> Result<Key, RowFault> {
        let k = n.saturating_sub(usize::from(self.below.counts().keys));
        behind(n, self.below.key(n), self.own_key(k))
    }
}
