//! Since when a store is open.

ghost use Rattle.std.specs.Prelude.{◌≡◌, ℕ};
ghost use Rattle.std.specs.Borrow.{ftrue};

use disk_model::Device;
use std::marker::{Model, PhantomData};

/// When the opening of a store ended. It has no bytes: contracts alone see it.
#[derive(Drop)]
pub struct Since {
    marker: PhantomData<u8>,
    /// The moment of the store's disk then.
    pub ghost moment: { ℕ },
}

impl Model for Since {
    ghost also_owns = { λ _. ftrue };
}

impl Since {
    /// The opening ends now.
    pub(crate) fn now<D: Device>(disk: &D) -> Since
        ensures { result.moment ≡ D.moment disk.now }
    {
        let _ = disk;
        Since {
            marker: PhantomData,
        }
    }
}
