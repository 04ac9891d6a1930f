// The front of a text.
ghost use Rattle.std.specs.Prelude.{◌≡◌, ◌≢◌, ◌++◌, ◌==◌, ℕ, List, None, Some, MatchOption, position};
ghost use Rattle.rt_check.specs.Place.{first_line};
ghost use Rattle.rt_check.specs.Judging.{second_word};

use rt_script::Pieces;

/// What stands after a text's front, where the text begins so.
pub(crate) fn after_front<'a>(text: &'a [u8], front: &[u8]) -> Option<&'a [u8]>
    ensures { MatchOption result ((more : List ℕ) → text.now ≢ front.now ++ more)
        (λ more. text.now ≡ front.now ++ more.now) }
{
    text.strip_prefix(front)
}

/// A text's first line with its line feed; the whole text where it has no line feed.
pub(crate) fn first_line(text: &[u8]) -> &[u8]
    ensures { result.now ≡ first_line text.now }
{
    match line_feed(text) {
        Some(end) => text.split_at(end + 1).0,
        None => text,
    }
}

// The index of the first line feed.
fn line_feed(text: &[u8]) -> Option<usize>
    ensures { result ≡ position (λ b. b == 10) text.now }
{
    text.iter().position(|b| *b == b'\n')
}

/// The second of a text's words, between its first two spaces, where it has a space.
pub(crate) fn second_word(text: &[u8]) -> Option<&[u8]>
    ensures { MatchOption result (second_word text.now ≡ None)
        (λ word. second_word text.now ≡ Some word.now) }
{
    let mut words = Pieces::new(text, b' ');
    words.next()?;
    words.next()
}
