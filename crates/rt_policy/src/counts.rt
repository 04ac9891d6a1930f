ghost use Rattle.std.specs.Prelude.{◌≡◌, ◌+◌, ◌<◌, ◌^◌, [], IfSome};
ghost use Rattle.rt_base.specs.declared.reply.Reply.{Reply};
ghost use Rattle.rt_model.specs.declared.event_kind.EventKind.{EventKind};
ghost use Rattle.rt_policy.specs.Counts.{AreCountsOf, is_kind, is_reply, kind_count, one_if, reply_count};

use rt_base::Reply;
use rt_model::{Event, EventKind};
use std::marker::Model;

/// How many kinds of event there are.
const KINDS: usize = EventKind::Own as usize + 1;

/// How many replies there are.
const REPLIES: usize = Reply::Done as usize + 1;

/// How many events of each kind were counted, and how many gave each reply.
#[derive(Drop)]
pub struct Counts {
    kinds: [u64; KINDS],
    replies: [u64; REPLIES],
}

impl Model for Counts {
    ghost use Rattle.std.specs.Prelude.{◌≡◌, length};
    ghost use Rattle.rt_policy.specs.Counts.{Counted};
    ghost use Rattle.rt_policy.specs.declared.counts.TheConstants.{KINDS, REPLIES};

    ghost Value = { Counted };

    ghost view = { λ c. record { kinds = c.kinds; replies = c.replies } };

    ghost invariant = { λ c. (length c.kinds ≡ KINDS) × (length c.replies ≡ REPLIES) };
}

impl Counts {
    /// The counts of no event.
    pub(crate) fn new() -> Counts
        ensures { AreCountsOf result [] }
    {
        Counts {
            kinds: [0; KINDS],
            replies: [0; REPLIES],
        }
    }

    /// How many events of this kind were counted.
    pub fn kind(&self, kind: EventKind) -> u64
        ensures { result ≡ kind_count self.now kind }
    {
        self.kinds[kind as usize]
    }

    /// How many events that give this reply were counted.
    pub fn reply(&self, reply: Reply) -> u64
        ensures { result ≡ reply_count self.now reply }
    {
        self.replies[reply as usize]
    }

    /// Counts one more event.
    pub(crate) fn add(&mut self, e: &Event)
        requires kind { kind_count self.old e.now.kind < 2 ^ 63 }
        requires reply { IfSome e.now.reply (λ reply. reply_count self.old reply < 2 ^ 63) }
        ensures kinds { (kind : EventKind)
            → kind_count self.new kind ≡ kind_count self.old kind + one_if (is_kind kind e.now.kind) }
        ensures replies { (reply : Reply)
            → reply_count self.new reply ≡ reply_count self.old reply + one_if (is_reply reply e.now.reply) }
    {
        self.kinds[e.kind as usize] += 1;
        if let Some(reply) = e.reply {
            self.replies[reply as usize] += 1;
        }
    }
}
