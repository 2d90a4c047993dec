ghost use Rattle.std.specs.Prelude.{◌≡◌, ◌+◌, ◌<◌, ◌∷◌, [], ◌++◌, length, IfOk, OnOk, OnErr, slice_set, slice_get};
ghost use Rattle.std.specs.Prelude.{Some};

use super::no_memory::NoMemory;
use std::alloc::Global;
use std::marker::Model;

/// A list of values on the heap, which keeps the allocator with which it was made. Contracts see the list of its
/// values.
#[derive(Drop)]
pub struct List<T: Copy> {
    items: Vec<T>,
}

impl<T: Copy> Model for List<T> {
    ghost use Rattle.std.specs.Prelude.{List};

    ghost Value = { List T };

    ghost view = { λ l. l.items.items };
}

impl<T: Copy> List<T> {
    /// The empty list. It allocates no memory, and later calls allocate from `alloc`.
    pub fn new(alloc: Global) -> List<T>
        ensures { result ≡ [] }
    {
        List {
            items: Vec::new(alloc),
        }
    }

    /// The number of values.
    pub fn len(&self) -> usize
        ensures { result ≡ length self.now }
    {
        self.items.len()
    }

    /// The value at the index `i`, counted from 0. `i` is below the length.
    pub fn at(&self, i: usize) -> T
        requires { i < length self.now }
        ensures { slice_get self.now i ≡ Some result }
    {
        self.items[i]
    }

    /// The values as a slice.
    pub fn as_slice(&self) -> &[T]
        ensures { result.now ≡ self.now }
    {
        self.items.as_slice()
    }

    /// Writes `item` at the index `i`, counted from 0. `i` is below the length. The other values stay.
    pub fn set(&mut self, i: usize, item: T)
        requires { i < length self.old }
        ensures { self.new ≡ slice_set self.old i item }
    {
        self.items[i] = item;
    }

    /// Adds a value at the end.
    ///
    /// [`NoMemory`] comes only if memory runs out, and the list is then unchanged.
    pub fn push(&mut self, item: T) -> Result<(), NoMemory>
        ensures ok { OnOk result (self.new ≡ self.old ++ item ∷ []) }
        ensures err { OnErr result (self.new ≡ self.old) }
    {
        self.items.push(item)?;
        Ok(())
    }

    /// The empty list of values of any type, with the allocator of this list. It allocates no memory.
    pub fn empty_like<U: Copy>(&self) -> List<U>
        ensures { result ≡ [] }
    {
        List::new(*self.items.allocator())
    }

    /// A list of the same values, with the same allocator.
    ///
    /// [`NoMemory`] comes only if memory runs out.
    pub fn copy(&self) -> Result<List<T>, NoMemory>
        ensures { IfOk result (λ l. l ≡ self.now) }
    {
        let items = Vec::from_slice(*self.items.allocator(), self.items.as_slice())?;
        Ok(List { items })
    }
}
