ghost use Rattle.std.specs.Prelude.{◌≡◌, ◌<◌, ◌^◌, ◌↔◌, Some, IsNone, IsSome};
ghost use Rattle.rt_words.specs.OwnerWord.{owner_number};

use crate::bits::{field, flag};
use crate::layout::{OWNER_AT, OWNER_BITS, STAMP_AT, STAMP_LIMIT, WAITERS_AT};
use rt_base::TaskId;
use rt_base::limits::MAX_TASKS;

/// What threads share of a lock's owner part, as the kernel's `rt_mutex_base::owner`, of which the lowest
/// bit says that there are waiters.
#[derive(Clone, Copy, Debug, PartialEq, Eq)]
pub struct OwnerWord {
    /// The stamp of the event that left the word.
    pub stamp: u64,
    /// The task that owns the lock.
    pub owner: Option<TaskId>,
    /// The waiters bit, `RT_MUTEX_HAS_WAITERS`.
    pub waiters: bool,
}

impl OwnerWord {
    ghost use Rattle.rt_words.specs.OwnerWord.{FitsOwnerWord, HasOwnerLayout, IsOwnerPack, packed_owner_word};

    /// The number of the word.
    pub fn pack(self) -> u64
        requires { FitsOwnerWord self }
        ensures number { result ≡ packed_owner_word self }
        ensures unique { (word : OwnerWord) → IsOwnerPack result word → word ≡ self }
    {
        u64::from(self.waiters) << WAITERS_AT
            | owner_field(self.owner) << OWNER_AT
            | self.stamp << STAMP_AT
    }

    /// The word of a number, where it is one's.
    pub fn unpack(w: u64) -> Option<OwnerWord>
        ensures some { (word : OwnerWord) → (result ≡ Some word) ↔ IsOwnerPack w word }
        ensures none { IsNone result ↔ ((word : OwnerWord) → ¬ IsOwnerPack w word) }
        ensures layout { IsSome result ↔ HasOwnerLayout w }
    {
        let stamp = w >> STAMP_AT;
        let owner = field(w, OWNER_AT, OWNER_BITS);
        if stamp >= STAMP_LIMIT || owner > MAX_TASKS as u64 {
            return None;
        }
        Some(OwnerWord {
            stamp,
            owner: owner_in(owner),
            waiters: flag(w, WAITERS_AT),
        })
    }
}

// The field of an owner, or of none.
fn owner_field(owner: Option<TaskId>) -> u64
    ensures { result ≡ owner_number owner }
{
    match owner {
        Some(t) => u64::from(t.0) + 1,
        None => 0,
    }
}

// The owner of a field.
fn owner_in(field: u64) -> Option<TaskId>
    requires { field < 2 ^ OWNER_BITS }
    ensures { owner_number result ≡ field }
{
    if field == 0 {
        None
    } else {
        Some(TaskId(field as u32 - 1))
    }
}
