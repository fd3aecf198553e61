//! Making a prefix, reading it, and putting elements past what it holds.
ghost use Rattle.std.specs.Prelude.{◌≡◌, ⊤, [], ◌∷◌, ◌++◌, length, min, take, replicate};
ghost use Rattle.prefix.specs.Prefix.{items};

use crate::Prefix;
use std::alloc::AllocError;

// A derived `clone` would clone element by element, and of a struct with ghost fields there is none.
impl<T: Copy, const N: usize> Clone for Prefix<T, N> {
    ghost is_clone = { λ p q. q ≡ p };

    ghost is_infallible = { λ _. ⊤ };

    fn clone(&self) -> Result<Self, AllocError> {
        Ok(*self)
    }
}

impl<T: Copy, const N: usize> Prefix<T, N> {
    /// An element again and again, `n` times or until there is no more room.
    pub fn repeat(element: T, n: usize) -> Self
        ensures { items result ≡ replicate (min n N) element }
    {
        Prefix {
            cells: [element; N],
            len: n.min(N),
        }
    }

    /// The first elements of a slice. `blank` fills the room that is left.
    pub fn of(elements: &[T], blank: T) -> Self
        ensures { items result ≡ take N elements.now }
    {
        let mut prefix = Self::repeat(blank, 0);
        prefix.extend_from_slice(elements);
        prefix
    }

    /// The elements.
    pub fn as_slice(&self) -> &[T]
        ensures { result.now ≡ items self.now }
    {
        &self.cells[..self.len]
    }

    /// All cells: the elements, and past them whatever the room that is left holds.
    // No code asks for them: must-fail edits plant them where a getter is to tell the elements alone.
    pub fn cells(&self) -> &[T]
        ensures long { length result.now ≡ N }
        ensures front { take (length (items self.now)) result.now ≡ items self.now }
    {
        &self.cells[..]
    }

    /// Holds the first elements of a slice, in place of those that it held.
    pub fn assign(&mut self, elements: &[T])
        ensures { items self.new ≡ take N elements.now }
    {
        self.len = 0;
        self.extend_from_slice(elements);
    }

    /// Appends an element, if there is room.
    pub fn push(&mut self, element: T)
        ensures { items self.new ≡ take N (items self.old ++ element ∷ []) }
    {
        if self.len < N {
            self.cells[self.len] = element;
            self.len += 1;
        }
    }

    /// Appends elements, as many as there is room for.
    pub fn extend_from_slice(&mut self, elements: &[T])
        ensures { items self.new ≡ take N (items self.old ++ elements.now) }
    {
        let n = (N - self.len).min(elements.len());
        let end = self.len + n;
        let cells = &mut self.cells[..];
        cells[self.len..end].copy_from_slice(&elements[..n]);
        self.len = end;
    }
}
