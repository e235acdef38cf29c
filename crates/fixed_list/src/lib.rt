// Lists of a fixed size that lie in the value and are copied with it. The library's ArrayVec is no Copy, so that nothing that holds one can be.
#![tactic(auto)]

ghost use Rattle.std.specs.Prelude.{⊤, ◌≡◌, ◌^◌, ◌<◌, ◌≤◌, ◌==◌, [], ◌∷◌, ◌++◌, length, insert};
ghost use Rattle.std.specs.Iterator.Runs.{EveryRun, ItemsMapTo};
ghost use Rattle.std.specs.Slice.Iter.{iter_rest, iter_steps};

use std::marker::Model;
use std::ops::DerefSlice;
use std::slice;

// What stands in a place without an element.
pub trait Blank: Copy {
    ghost blank: { Self };

    fn blank() -> Self
        ensures { result ≡ blank };
}

impl Blank for u8 {
    ghost blank = { 0 };

    fn blank() -> Self {
        0
    }
}

// At most CAP elements, which lie in the value itself. Blanks stand behind them, so that the elements fix the value.
pub struct FixedList<T: Blank, const CAP: usize> {
    cells: [T; CAP],
    len: usize,
}

impl<T: Blank, const CAP: usize> Clone for FixedList<T, CAP> {
    ghost is_clone = { λ v w. w ≡ v };

    ghost is_infallible = { λ _. ⊤ };

    fn clone(&self) -> Result<Self, std::alloc::AllocError> {
        Ok(*self)
    }
}

impl<T: Blank, const CAP: usize> Copy for FixedList<T, CAP> {}

impl<T: Blank, const CAP: usize> Model for FixedList<T, CAP> {
    ghost use Rattle.std.specs.Prelude.{◌≡◌, ◌≤◌, ◌++◌, length, take, drop};
    ghost use Rattle.fixed_list.specs.FixedList.{FixedList as Items, with_blanks};

    ghost Value = { Items T };

    ghost view = { λ s. record { items = take s.len s.cells } };

    ghost invariant = { λ s. (s.len ≤ CAP) × (length s.cells ≡ CAP) × (s.cells ≡ with_blanks T.blank CAP (take s.len s.cells)) };

    ghost inverse = { λ s. record { cells = with_blanks T.blank CAP s.items; len = length s.items } };
}

impl<T: Blank, const CAP: usize> FixedList<T, CAP> {
    // Without an element.
    pub fn new() -> Self
        ensures { result.items ≡ [] }
    {
        FixedList {
            cells: [T::blank(); CAP],
            len: 0,
        }
    }

    // How many elements there are.
    #[inline]
    pub fn len(&self) -> usize
        ensures value { result ≡ length self.now.items }
        ensures fits { result ≤ CAP }
    {
        self.len
    }

    // Whether there is none.
    #[inline]
    pub fn is_empty(&self) -> bool
        ensures { result ≡ (length self.now.items == 0) }
    {
        self.len == 0
    }

    // Whether there is no room left.
    #[inline]
    pub fn is_full(&self) -> bool
        ensures value { result ≡ (length self.now.items == CAP) }
        ensures fits { length self.now.items ≤ CAP }
    {
        self.len == CAP
    }

    // The elements.
    #[inline]
    pub fn as_slice(&self) -> &[T]
        ensures value { result.now ≡ self.now.items }
        ensures fits { length result.now ≤ CAP }
    {
        &self.cells[..self.len]
    }

    // Appends an element; a list without room stays as it is.
    #[inline]
    pub fn push(&mut self, element: T)
        ensures items { length self.old.items < CAP → self.new.items ≡ self.old.items ++ element ∷ [] }
        ensures full { CAP ≤ length self.old.items → self.new ≡ self.old }
    {
        let len = self.len;
        if len < CAP {
            self.cells[len] = element;
            self.len = len + 1;
        }
    }

    // Puts an element at a place, and moves the later ones up; a list without room, or without the place, stays as it is.
    pub fn insert(&mut self, index: usize, element: T)
        ensures items { index ≤ length self.old.items → length self.old.items < CAP → self.new.items ≡ insert self.old.items index element }
        ensures full { CAP ≤ length self.old.items → self.new ≡ self.old }
        ensures beyond { length self.old.items < index → self.new ≡ self.old }
    {
        let len = self.len;
        if index <= len && len < CAP {
            self.cells.copy_within(index..len, index + 1);
            self.cells[index] = element;
            self.len = len + 1;
        }
    }
}

impl<T: Blank, const CAP: usize> DerefSlice for FixedList<T, CAP> {
    type Elem = T;

    ghost deref_gives = { λ v xs. (xs ≡ v.items) × (length xs ≤ CAP) };

    #[inline]
    fn deref(&self) -> &[T] {
        self.as_slice()
    }
}

impl<'a, T: Blank, const CAP: usize> IntoIterator for &'a FixedList<T, CAP> {
    type Item = &'a T;

    type IntoIter = slice::Iter<'a, T>;

    ghost into_iter_gives = { λ v it. (iter_rest it ≡ v.now.items) × (length (iter_rest it) ≤ CAP)
        × (length (iter_rest it) < 2 ^ 64)
        × EveryRun (iter_steps {A = T}) (λ p. ItemsMapTo p (λ x. x.now) (iter_rest p.from)) };

    #[inline]
    fn into_iter(self) -> slice::Iter<'a, T> {
        self.as_slice().iter()
    }
}

impl<T: Blank, const CAP: usize> Default for FixedList<T, CAP> {
    ghost is_default = { λ v. v.items ≡ [] };

    fn default() -> Self {
        Self::new()
    }
}
