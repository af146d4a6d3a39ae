//! What commits need of memory: the begins of their jobs take it, since a commit takes none.

ghost use Rattle.std.specs.Prelude.{◌+◌, length, IfOk};
ghost use Rattle.block_list.specs.Body.{MeetsRules};
ghost use Rattle.block_list.specs.Commit.{IsListText};
ghost use Rattle.block_list.specs.declared.body.ListBody.{ListBody};
ghost use Rattle.store_state.specs.Edited.{IsEdited, edit_of, one_of};
ghost use Rattle.store_state.specs.Loose.{flush_part};
ghost use Rattle.store_core.specs.Jobs.{CommitFits, FitsEdit};

use block_list::{ListBody, PreparedList};
use span_types::Memory;
use std::alloc::Global;
use store_state::{ListEdit, ListRoom, edited};

/// Room for the list that a job's commit makes.
#[derive(Drop)]
pub struct CommitRoom {
    /// For the list.
    pub next: ListRoom,
    /// For its text.
    pub text: PreparedList,
}

impl CommitRoom {
    /// Room for each list that the commits of two jobs may make after this one, while so many files are loose.
    pub(crate) fn after(alloc: Global, list: &ListBody, loose: usize) -> Result<CommitRoom, Memory>
        ensures { IfOk result (λ room. CommitFits room list.now loose 2) }
    {
        let (blocks, segments) = (list.blocks.len(), list.segments.len());
        let next = ListRoom::after(alloc, list, loose)?;
        let bytes = 29 + 12 * (segments + 2) + 9 * (blocks + 2) + 4 * (loose + 4);
        let text = PreparedList::with_room(alloc, bytes)?;
        Ok(CommitRoom { next, text })
    }

    /// The list after this one by an edit, and its text. They take this room, and no memory.
    pub(crate) fn edited(self, list: &ListBody, edit: ListEdit<'_, '_>) -> (ListBody, PreparedList)
        requires fits { FitsEdit self list.now (length edit.loose.now)
            (length (flush_part edit.flush) + length (one_of edit.compaction)) }
        requires rules { (next : ListBody) → IsEdited list.now (edit_of edit) next
            → MeetsRules next }
        ensures list { IsEdited list.now (edit_of edit.entry) result.0 }
        ensures text { IsListText result.1 result.0 }
    {
        let CommitRoom { next, text } = self;
        let mut text = text;
        let body = edited(list, edit, next);
        text.refill(&body);
        (body, text)
    }
}
