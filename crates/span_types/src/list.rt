//! The one list type, which contracts see as a list, and what can be copied where memory allows.

ghost use Rattle.std.specs.Prelude.{◌≡◌, ◌++◌, [], IfOk, OnErr, OnOk, length, take};

use crate::{Memory, TraceId};
use std::alloc::Global;
use std::marker::Model;

/// What can be copied where memory allows. All that holds text or a list is copied by this trait.
pub trait TryCopy: Drop {
    /// A second value equal to this one.
    fn copy(&self) -> Result<Self, Memory>
        ensures { IfOk result (λ x. x ≡ self.now) };
}

/// A list, which contracts see as the list of its items. It is made from a vector and gives it back, without a copy.
#[derive(Debug, Drop)]
pub struct Seq<T> {
    inner: Vec<T>,
}

impl<T> Model for Seq<T> {
    ghost use Rattle.std.specs.Prelude.{List};

    ghost Value = { List T };

    ghost view = { λ l. l.inner.items };
}

impl<T> Seq<T> {
    /// No items.
    pub fn none(alloc: Global) -> Seq<T>
        ensures { result ≡ [] }
    {
        Seq {
            inner: Vec::new(alloc),
        }
    }

    /// The list of a vector's items, which are moved and not copied.
    pub fn of(inner: Vec<T>) -> Seq<T>
        ensures { result ≡ inner.items }
    {
        Seq { inner }
    }

    /// The vector again, without a copy.
    pub fn into_vec(self) -> Vec<T>
        ensures { result.items ≡ self }
    {
        self.inner
    }

    /// The items as a slice.
    pub fn as_slice(&self) -> &[T]
        ensures { result.now ≡ self.now }
    {
        self.inner.as_slice()
    }

    /// The number of items.
    pub fn len(&self) -> usize
        ensures { result ≡ length self.now }
    {
        self.inner.len()
    }
}

impl<T: Copy> Seq<T> {
    /// Adds items to the end. Out of memory, the list stands.
    pub fn extend_from_slice(&mut self, items: &[T]) -> Result<(), Memory>
        ensures ok { OnOk result (self.new ≡ self.old ++ items.now) }
        ensures err { OnErr result (self.new ≡ self.old) }
    {
        self.inner.extend_from_slice(items)?;
        Ok(())
    }

    /// Drops all but the first items, so many as are said.
    pub fn truncate(&mut self, len: usize)
        ensures { self.new ≡ take len self.old }
    {
        self.inner.truncate(len);
    }
}

impl<T: TryCopy> TryCopy for Seq<T> {
    fn copy(&self) -> Result<Seq<T>, Memory> {
        let mut inner = Vec::new(*self.inner.allocator());
        inner.reserve(self.inner.len())?;
        for item in self.inner.as_slice() {
            inner.push(item.copy()?)?;
        }
        Ok(Seq { inner })
    }
}

/// A list of bytes.
pub type Bytes = Seq<u8>;

/// Numbers of a device's calls, counted from 1.
pub type Calls = Seq<u64>;

/// Moments in nanoseconds.
pub type Moments = Seq<u64>;

/// Trace ids.
pub type Ids = Seq<TraceId>;

/// One mark for each row of a list.
pub type Marks = Seq<bool>;
