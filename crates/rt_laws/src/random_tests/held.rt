// What the events tell of one lock.
use rt_base::TaskId;
use rt_model::{Event, EventKind};

/// Who holds a lock: its owner, whether a writer is in, and how many readers.
#[derive(Clone, Copy)]
pub struct Held {
    owner: Option<TaskId>,
    writer: bool,
    readers: i32,
}

impl Held {
    /// A lock that nobody holds.
    pub const FREE: Held = Held {
        owner: None,
        writer: false,
        readers: 0,
    };

    /// Its owner.
    pub fn owner(self) -> Option<TaskId> {
        self.owner
    }

    /// Whether a writer is in.
    pub fn writer(self) -> bool {
        self.writer
    }

    /// How many readers are in.
    pub fn readers(self) -> i32 {
        self.readers
    }

    /// Whether an event at it fits who holds it.
    pub fn fits(self, e: &Event) -> bool {
        match e.kind {
            EventKind::Fast | EventKind::Take => self.owner.is_none(),
            EventKind::Free | EventKind::Give | EventKind::WOpen => self.owner == Some(e.task),
            EventKind::WTake => { self.owner == Some(e.task) && !self.writer && self.readers == 0 }
            EventKind::RIn => !self.writer,
            EventKind::ROut => self.readers > 0,
            _ => true,
        }
    }

    /// Who holds it after the event.
    pub fn after(self, e: &Event) -> Held {
        let owner = match e.kind {
            EventKind::Fast | EventKind::Take => Some(e.task),
            EventKind::Free | EventKind::Give => None,
            _ => self.owner,
        };
        let writer = match e.kind {
            EventKind::WTake => true,
            EventKind::WOpen => false,
            _ => self.writer,
        };
        Held {
            owner,
            writer,
            readers: self.readers.wrapping_add(readers_in(e)),
        }
    }
}

/// How many readers an event lets in; one that is let out counts against them.
pub fn readers_in(e: &Event) -> i32 {
    match e.kind {
        EventKind::RIn => 1,
        EventKind::ROut => -1,
        EventKind::WOpen => e.value as i32,
        _ => 0,
    }
}
