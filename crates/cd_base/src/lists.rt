ghost use Rattle.std.specs.Prelude.{◌≡◌, ◌==◌, [], length};

use std::alloc::Global;
use std::marker::Model;

/// A `Vec` that contracts see as the list of its items, so that equal lists are equal values. Made from a
/// `Vec`, and giving it back, with no memory.
#[derive(Debug, Drop)]
pub struct Listed<T> {
    all: Vec<T>,
}

impl<T> Model for Listed<T> {
    ghost use Rattle.std.specs.Prelude.{List};

    ghost Value = { List T };

    ghost view = { λ a. a.all.items };
}

impl<T> From<Vec<T>> for Listed<T> {
    ghost from_gives = { λ vec listed. listed ≡ vec.items };

    fn from(all: Vec<T>) -> Listed<T> {
        Listed { all }
    }
}

impl<T> Listed<T> {
    /// No items. Takes no memory.
    pub fn new(alloc: Global) -> Listed<T>
        ensures { result ≡ [] }
    {
        Listed {
            all: Vec::new(alloc),
        }
    }

    /// How many items there are.
    pub fn len(&self) -> usize
        ensures { result ≡ length self.now }
    {
        self.all.len()
    }

    /// Whether there is no item.
    pub fn is_empty(&self) -> bool
        ensures { result ≡ (length self.now == 0) }
    {
        self.all.is_empty()
    }

    /// The items in place.
    pub fn as_slice(&self) -> &[T]
        ensures { result.now ≡ self.now }
    {
        self.all.as_slice()
    }

    /// The `Vec` again.
    pub fn into_vec(self) -> Vec<T>
        ensures { result.items ≡ self }
    {
        self.all
    }
}
