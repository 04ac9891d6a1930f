ghost use Rattle.std.specs.Prelude.{◌≡◌};
ghost use Rattle.rt_model.specs.events.Own.{if_held, if_not_held, private_answer};

use rt_base::{Call, Kind, Reply};

/// The answer that a call gets from what its own thread knows, where there is one: the kernel's warnings,
/// and errors of the caller, found without a look at the lock. `kind` is the kind of the lock that the call is about,
/// `spinning_holds` how many locks of a spinning kind the thread holds, `holds_it` whether it has the hold that the call
/// is about (the read hold at an unread, else the one that owns), and `migration` its migration count. The answers, in the
/// order in which they are looked for:
///
/// - `Nesting`: the call may sleep in an ordinary state, and the thread holds a lock of a spinning kind, of which
///   `__might_resched` warns. A trylock never sleeps, and a spinning kind waits in a state of its own.
/// - `Deadlock`: the call waits for a lock that the thread holds itself, as in `rt_mutex_handle_deadlock`.
/// - `NotOwner`: the call gives back what the thread doesn't hold, of which `debug_rt_mutex_unlock` warns.
/// - `Pinned`: the thread is to go to another processor while its migration is disabled, `migrate_disable`.
pub fn refuses(
    call: Call,
    kind: Option<Kind>,
    spinning_holds: u32,
    holds_it: bool,
    migration: u32,
) -> Option<Reply>
    ensures { result ≡ private_answer call kind spinning_holds holds_it migration }
{
    let nested = spinning_holds > 0;
    match call {
        Call::Lock(_) | Call::LockInt(_) | Call::Schedule if nested => Some(Reply::Nesting),
        Call::Read(_) | Call::Write(_) if nested && kind == Some(Kind::RwSem) => {
            Some(Reply::Nesting)
        }
        Call::Lock(_)
        | Call::LockInt(_)
        | Call::Spin(_)
        | Call::Local(_)
        | Call::Read(_)
        | Call::Write(_) => if_held(holds_it),
        Call::Unlock(_)
        | Call::Unspin(_)
        | Call::Unread(_)
        | Call::Unwrite(_)
        | Call::Downgrade(_)
        | Call::Unlocal(_) => if_not_held(holds_it),
        Call::Move(_) if migration > 0 => Some(Reply::Pinned),
        _ => None,
    }
}

// The answer of an acquire of what may be held.
fn if_held(held: bool) -> Option<Reply>
    ensures { result ≡ if_held held }
{
    if held { Some(Reply::Deadlock) } else { None }
}

// The answer of a release of what may not be held.
fn if_not_held(held: bool) -> Option<Reply>
    ensures { result ≡ if_not_held held }
{
    if held { None } else { Some(Reply::NotOwner) }
}
