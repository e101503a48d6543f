//! A list that only contracts see. It takes no memory, and its calls do nothing at run time.
ghost use Rattle.std.specs.Prelude.{◌≡◌, List, [], ◌∷◌, ◌++◌};
ghost use Rattle.std.specs.Borrow.{ftrue};

use std::marker::{Model, PhantomData};

/// Contracts see it as the list of its items, the first one first.
#[derive(Drop)]
pub struct GhostList<T> {
    of: PhantomData<T>,
    ghost items: { List T },
}

impl<T> Model for GhostList<T> {
    ghost Value = { List T };

    ghost view = { λ l. l.items };

    ghost also_owns = { λ _. ftrue };
}

/// What contracts see such a list in.
pub trait Keeps<T> {
    ghost list: { Self → List T };
}

/// No item.
#[derive(Drop)]
struct Nothing {}

impl<T> Keeps<T> for Nothing {
    ghost list = { λ _. [] };
}

/// A list, and one item behind it.
#[derive(Drop)]
struct Longer<'a, T> {
    before: &'a GhostList<T>,
    item: &'a T,
}

impl<'a, T> Keeps<T> for Longer<'a, T> {
    ghost list = { λ l. l.before.now ++ l.item.now ∷ [] };
}

/// A list, and the items of a slice behind it.
#[derive(Drop)]
struct Joined<'a, T> {
    before: &'a GhostList<T>,
    items: &'a [T],
}

impl<'a, T> Keeps<T> for Joined<'a, T> {
    ghost list = { λ j. j.before.now ++ j.items.now };
}

impl<T> GhostList<T> {
    /// The list of `from`. Each other list is made by this call.
    pub fn of<K: Keeps<T>>(_from: &K) -> GhostList<T>
        ensures { result ≡ K.list _from.now }
    {
        GhostList { of: PhantomData }
    }

    /// The empty list.
    pub fn new() -> GhostList<T>
        ensures { result ≡ [] }
    {
        GhostList::of(&Nothing {})
    }

    /// The list grows by this item.
    pub fn push(&mut self, item: &T)
        ensures { self.new ≡ self.old ++ item.now ∷ [] }
    {
        let longer = GhostList::of(&Longer { before: self, item });
        *self = longer;
    }

    /// The list grows by these items.
    pub fn append(&mut self, items: &[T])
        ensures { self.new ≡ self.old ++ items.now }
    {
        let joined = GhostList::of(&Joined {
            before: self,
            items,
        });
        *self = joined;
    }
}
