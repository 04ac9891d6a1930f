/// The first word of a line.
#[derive(Clone, Copy, Debug)]
pub(crate) enum Keyword {
    Cpus,
    Task,
    Lock,
    Call,
    Pick,
}

impl Keyword {
    ghost use Rattle.std.specs.Prelude.{◌≡◌};
    ghost use Rattle.rt_script.specs.Spelling.{keyword_spelled};

    /// The keyword that a word spells.
    pub(crate) fn read(word: &[u8]) -> Option<Keyword>
        ensures { result ≡ keyword_spelled word.now }
    {
        if word == b"cpus".as_slice() {
            Some(Keyword::Cpus)
        } else if word == b"task".as_slice() {
            Some(Keyword::Task)
        } else if word == b"lock".as_slice() {
            Some(Keyword::Lock)
        } else if word == b"call".as_slice() {
            Some(Keyword::Call)
        } else if word == b"pick".as_slice() {
            Some(Keyword::Pick)
        } else {
            None
        }
    }
}
