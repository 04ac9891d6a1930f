ghost use Rattle.std.specs.Prelude.{◌≡◌};
ghost use Rattle.rt_script.specs.Spelling.{lock_verb_spelled, verb_spelled};

/// The name of a call on a lock.
#[derive(Clone, Copy, Debug)]
pub(crate) enum LockVerb {
    Lock,
    LockInt,
    TryLock,
    Unlock,
    Spin,
    TrySpin,
    Unspin,
    Read,
    TryRead,
    Unread,
    Write,
    TryWrite,
    Unwrite,
    Downgrade,
    Local,
    Unlocal,
}

/// The name of a call.
#[derive(Clone, Copy, Debug)]
pub(crate) enum Verb {
    OnLock(LockVerb),
    State,
    Schedule,
    Wake,
    Signal,
    SetPrio,
    Move,
}

impl Verb {
    /// The call that a word spells.
    pub(crate) fn read(word: &[u8]) -> Option<Verb>
        ensures { result ≡ verb_spelled word.now }
    {
        if let Some(verb) = LockVerb::read(word) {
            Some(Verb::OnLock(verb))
        } else if word == b"state".as_slice() {
            Some(Verb::State)
        } else if word == b"schedule".as_slice() {
            Some(Verb::Schedule)
        } else if word == b"wake".as_slice() {
            Some(Verb::Wake)
        } else if word == b"signal".as_slice() {
            Some(Verb::Signal)
        } else if word == b"setprio".as_slice() {
            Some(Verb::SetPrio)
        } else if word == b"move".as_slice() {
            Some(Verb::Move)
        } else {
            None
        }
    }
}

impl LockVerb {
    /// The call on a lock that a word spells.
    fn read(word: &[u8]) -> Option<LockVerb>
        ensures { result ≡ lock_verb_spelled word.now }
    {
        if word == b"lock".as_slice() {
            Some(LockVerb::Lock)
        } else if word == b"lockint".as_slice() {
            Some(LockVerb::LockInt)
        } else if word == b"trylock".as_slice() {
            Some(LockVerb::TryLock)
        } else if word == b"unlock".as_slice() {
            Some(LockVerb::Unlock)
        } else if word == b"spin".as_slice() {
            Some(LockVerb::Spin)
        } else if word == b"tryspin".as_slice() {
            Some(LockVerb::TrySpin)
        } else if word == b"unspin".as_slice() {
            Some(LockVerb::Unspin)
        } else if word == b"read".as_slice() {
            Some(LockVerb::Read)
        } else if word == b"tryread".as_slice() {
            Some(LockVerb::TryRead)
        } else if word == b"unread".as_slice() {
            Some(LockVerb::Unread)
        } else if word == b"write".as_slice() {
            Some(LockVerb::Write)
        } else if word == b"trywrite".as_slice() {
            Some(LockVerb::TryWrite)
        } else if word == b"unwrite".as_slice() {
            Some(LockVerb::Unwrite)
        } else if word == b"downgrade".as_slice() {
            Some(LockVerb::Downgrade)
        } else if word == b"local".as_slice() {
            Some(LockVerb::Local)
        } else if word == b"unlocal".as_slice() {
            Some(LockVerb::Unlocal)
        } else {
            None
        }
    }
}
