ghost use Rattle.std.specs.Prelude.{ℕ, ◌≡◌, List, [], ◌∷◌, MatchOption, true};
ghost use Rattle.rt_script.specs.Words.{words_of};
ghost use Rattle.rt_events.specs.reading.Tail.{is_plain, plain_front, plain_rest};

use rt_script::Pieces;
use std::marker::Model;

/// The words of a line that are still to be read. The next of them can be looked at first.
#[derive(Drop)]
pub(crate) struct LineWords<'a> {
    ahead: Option<&'a [u8]>,
    others: Pieces<'a>,
}

impl<'a> Model for LineWords<'a> {
    ghost use Rattle.std.specs.Prelude.{List, ℕ};

    ghost Value = { List (List ℕ) };

    ghost use Rattle.rt_events.specs.reading.WordsLeft.{words_left};

    ghost view = { λ w. words_left w.ahead w.others };
}

impl<'a> LineWords<'a> {
    /// All words of a line.
    pub(crate) fn new(line: &'a [u8]) -> LineWords<'a>
        ensures { result ≡ words_of line.now }
    {
        let mut others = Pieces::new(line, b' ');
        let ahead = others.next();
        LineWords { ahead, others }
    }

    /// The next word, which stays.
    pub(crate) fn peek(&self) -> Option<&'a [u8]>
        ensures { MatchOption result (self.now ≡ [])
            (λ word. (more : List (List ℕ)) × (self.now ≡ word.now ∷ more)) }
    {
        self.ahead
    }

    /// Takes the next word, where there is one.
    pub(crate) fn next(&mut self) -> Option<&'a [u8]>
        ensures { MatchOption result ((self.old ≡ []) × (self.new ≡ []))
            (λ word. self.old ≡ word.now ∷ self.new) }
    {
        let word = self.ahead?;
        self.ahead = self.others.next();
        Some(word)
    }

    /// Takes the next word, where it begins neither a boost nor an answer.
    pub(crate) fn next_plain(&mut self) -> Option<&'a [u8]>
        ensures { MatchOption result
            ((plain_front self.old ≡ []) × (plain_rest self.old ≡ self.old) × (self.new ≡ self.old))
            (λ word. (self.old ≡ word.now ∷ self.new) × (is_plain word.now ≡ true)) }
    {
        if !is_plain(self.peek()?) {
            return None;
        }
        self.next()
    }
}

// Whether the word has neither an `=` nor a `>`.
fn is_plain(word: &[u8]) -> bool
    ensures { result ≡ is_plain word.now }
{
    word.iter().all(|b| *b != b'=' && *b != b'>')
}
