//! A theorem about images.
//!
//! The function has an empty body: its contract is the statement, and the check finds the proof by itself. Nothing
//! calls it, and no proof cites it: `docs/DISK-MODEL.md` does. `_disk` is there to name the type `D`.

ghost use Rattle.std.specs.Prelude.{◌≢◌, ℕ, List};
ghost use Rattle.disk_model.specs.Images.{Besides};
ghost use Rattle.disk_model.specs.Crash.{Follows, OnlyBytes};

use crate::Device;

/// After changes of one file every image still has in another file what every image had there before.
pub fn other_files_stay<D: Device>(_disk: &D)
    ensures { (old new : D) (file other : ℕ) (bytes : List ℕ) → other ≢ file
        → OnlyBytes other bytes (D.may_leave old)
        → Follows (Besides file) (D.may_leave old) (D.may_leave new)
        → OnlyBytes other bytes (D.may_leave new) }
{}
