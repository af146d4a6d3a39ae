//! What several spans share: resources and scopes.

ghost use Rattle.std.specs.Prelude.{◌≡◌, IfOk};

use crate::{Memory, Resource, Scope, TryCopy};
use std::alloc::Global;
use std::marker::Model;
use std::sync::Arc;

/// A value that has several holders, which contracts see as the value.
#[derive(Debug, Drop)]
pub struct Shared<T> {
    inner: Arc<T>,
}

impl<T> Model for Shared<T> {
    ghost Value = { T };

    ghost view = { λ a. a.inner.value };
}

impl<T: Drop> Shared<T> {
    /// A value that can be shared from now on.
    pub fn of(alloc: Global, value: T) -> Result<Shared<T>, Memory>
        ensures { IfOk result (λ s. s ≡ value) }
    {
        let inner = Arc::new(alloc, value)?;
        Ok(Shared { inner })
    }

    /// The value itself.
    pub fn get(&self) -> &T
        ensures { result.now ≡ self.now }
    {
        &self.inner
    }
}

impl<T: Drop> TryCopy for Shared<T> {
    fn copy(&self) -> Result<Shared<T>, Memory> {
        let inner = Arc::try_clone(&self.inner)?;
        Ok(Shared { inner })
    }
}

/// A resource that several spans share.
pub type SharedResource = Shared<Resource>;

/// A scope that several spans share.
pub type SharedScope = Shared<Scope>;
