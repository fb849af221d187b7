// A name of a table or a column.
ghost use Rattle.std.specs.Prelude.{◌≡◌, ◌==◌, ◌↔◌, List, ℕ, IsSome, IfSome};
ghost use Rattle.std.specs.Cmp.Lexicographic.{pointwise, slice_cmp};
ghost use Rattle.std.specs.Cmp.{partial_order_from_own_ties};
ghost use Rattle.std.specs.Ordering.{nat_cmp, as_partial_cmp};
ghost use Rattle.std.proofs.Common.{rules};
ghost use Rattle.std.specs.Cmp.Rules.{comparing};
ghost use Rattle.ctr_types.specs.Names.{IsName};

use crate::{Plain, Text};
use std::alloc::{AllocError, Global};
use std::cmp::Ordering;
use std::marker::Model;

/// A text of 1 to 16 bytes. Names are compared byte by byte.
#[derive(Debug, Drop)]
pub struct Name {
    text: Text,
}

impl Model for Name {
    ghost Value = { List ℕ };

    ghost view = { λ a. a.text };

    ghost invariant = { λ a. IsName a.text };
}

impl Name {
    /// The most bytes that a name has.
    pub const MOST: usize = 16;

    /// The name of this text, where its length is one of a name's. It takes no memory.
    pub fn new(text: Text) -> Option<Name>
        ensures found { IsSome result ↔ IsName text }
        ensures same { IfSome result (λ name. name ≡ text) }
    {
        if text.is_empty() || text.len() > Name::MOST {
            return None;
        }
        Some(Name { text })
    }

    /// Its bytes, 1 to 16 of them.
    pub fn as_slice(&self) -> &[u8]
        ensures value { result.now ≡ self.now }
        ensures length { IsName self.now }
    {
        self.text.as_slice()
    }

    /// Its text. It takes no memory.
    pub fn into_text(self) -> Text
        ensures { result ≡ self }
    {
        let Name { text } = self;
        text
    }
}

impl PartialEq for Name {
    ghost eq = { pointwise ◌==◌ };

    ghost laws = { Prim.search (comparing, rules) };

    fn eq(&self, other: &Name) -> bool {
        self.text.as_slice() == other.text.as_slice()
    }
}

impl Eq for Name {
    ghost laws = { Prim.search (comparing, rules) };
}

/// Names are in the order of their bytes.
impl PartialOrd for Name {
    ghost partial_cmp = { as_partial_cmp (slice_cmp nat_cmp) };

    ghost laws = { partial_order_from_own_ties (Prim.search (comparing, rules)) (Prim.search (comparing, rules)) };

    fn partial_cmp(&self, other: &Name) -> Option<Ordering> {
        Some(self.cmp(other))
    }
}

impl Ord for Name {
    ghost cmp = { slice_cmp nat_cmp };

    ghost total = { Prim.search (comparing, rules) };

    ghost matches_partial_cmp = { Prim.search (comparing, rules) };

    ghost matches_eq = { Prim.search (comparing, rules) };

    fn cmp(&self, other: &Name) -> Ordering {
        self.text.as_slice().cmp(other.text.as_slice())
    }
}

impl Plain for Name {
    fn copy(&self, alloc: Global) -> Result<Self, AllocError> {
        let text = self.text.copy(alloc)?;
        Ok(Name { text })
    }

    fn same(&self, other: &Self) -> bool {
        self.text.same(&other.text)
    }
}
