//! Lists of fractions, elements and polynomials.

ghost use Rattle.std.specs.Prelude.{◌≡◌, [], ◌∷◌, ◌++◌, length, None, IfOk, OnOk, OnErr, option_to_list};
ghost use Rattle.std.specs.Borrow.{sem, Lends, Array};
ghost use Rattle.risch_elem.specs.contracts.lists.Items.{the_row};
ghost use Rattle.risch_elem.specs.Items.{with_items};

use crate::elem::Elem;
use crate::polynomial::Poly;
use risch_frac::Frac;
use std::alloc::{AllocError, Global};
use std::marker::Model;

/// A value that can be made once more.
pub trait Copied: Drop {
    /// The value once more.
    ///
    /// `Err(AllocError)` for want of memory alone.
    fn copied(&self, alloc: Global) -> Result<Self, AllocError>
        ensures { IfOk result (λ copy. copy ≡ self.now) };
}

impl Copied for Frac {
    fn copied(&self, _alloc: Global) -> Result<Frac, AllocError> {
        Ok(*self)
    }
}

impl Copied for u32 {
    fn copied(&self, _alloc: Global) -> Result<u32, AllocError> {
        Ok(*self)
    }
}

impl Copied for Elem {
    fn copied(&self, alloc: Global) -> Result<Elem, AllocError> {
        self.copy(alloc)
    }
}

impl Copied for Poly {
    fn copied(&self, alloc: Global) -> Result<Poly, AllocError> {
        self.copy(alloc)
    }
}

/// A list.
#[derive(Drop)]
pub struct Items<T: Drop> {
    items: Vec<T>,
}

/// A list of fractions.
pub type FracList = Items<Frac>;

/// A list of whole numbers.
pub type NumberList = Items<u32>;

/// A list of elements.
pub type ElemList = Items<Elem>;

/// A list of polynomials over the tower.
pub type PolyList = Items<Poly>;

impl<T: Drop> Model for Items<T> {
    ghost use Rattle.std.specs.Prelude.{List};
    ghost use Rattle.std.specs.Coded.{coded_list};

    ghost Value = { List T };

    ghost coded = { coded_list T.code };

    ghost view = { λ list. list.items.items };
}

impl<T: Drop> Items<T> {
    /// The empty list.
    pub fn new(alloc: Global) -> Items<T>
        ensures { result ≡ [] }
    {
        Items {
            items: Vec::new(alloc),
        }
    }

    /// Appends an item. Where memory is wanting the list is as before.
    pub fn push(&mut self, item: T) -> Result<(), AllocError>
        ensures ok { OnOk result (self.new ≡ self.old ++ item ∷ []) }
        ensures err { OnErr result (self.new ≡ self.old) }
    {
        self.items.push(item)?;
        Ok(())
    }

    /// Takes the last item off; `None` of the empty list.
    pub fn pop(&mut self) -> Option<T>
        ensures last { self.old ≡ self.new ++ option_to_list result }
        ensures empty { result ≡ None → self.old ≡ [] }
    {
        self.items.pop()
    }

    /// How many items there are.
    pub fn len(&self) -> usize
        ensures { result ≡ length self.now }
    {
        self.items.len()
    }

    /// The items.
    pub fn as_slice(&self) -> &[T]
        ensures { result.now ≡ self.now }
    {
        self.items.as_slice()
    }

    /// The list of these items.
    pub fn from_vec(items: Vec<T>) -> Items<T>
        ensures { result ≡ items.items }
    {
        Items { items }
    }

    /// The items, of a list that is given away.
    pub fn into_vec(self) -> Vec<T>
        ensures { result.items ≡ self }
    {
        self.items
    }

    /// The items, to be changed.
    pub fn as_mut_slice(&mut self) -> &mut [T]
        ensures* writes_back { sem 𝓛 (Lends (the_row T.row) (Array T.row 0) self.entry result (with_items self.old)) }
        ensures value { result.now ≡ self.old }
    {
        self.items.as_mut_slice()
    }
}

/// Appends the items once more.
fn push_copies<T: Copied>(alloc: Global, to: &mut Items<T>, from: &[T]) -> Result<(), AllocError>
    ensures { OnOk result (to.new ≡ to.old ++ from.now) }
{
    for item in from {
        to.push(item.copied(alloc)?)?;
    }
    Ok(())
}

impl<T: Copied> Items<T> {
    /// The list once more, with each of its items.
    ///
    /// `Err(AllocError)` for want of memory alone.
    pub fn copy(&self, alloc: Global) -> Result<Items<T>, AllocError>
        ensures { IfOk result (λ copy. copy ≡ self.now) }
    {
        let mut copy = Items::new(alloc);
        push_copies(alloc, &mut copy, self.as_slice())?;
        Ok(copy)
    }
}

impl<T: Copied> Copied for Items<T> {
    fn copied(&self, alloc: Global) -> Result<Items<T>, AllocError> {
        self.copy(alloc)
    }
}
