// Lines and their words.
ghost use Rattle.std.specs.Prelude.{◌≡◌, ◌≢◌, ℕ, ◌+◌, ◌<◌, ◌≤◌, [], length, drop, slice_index, Some, MatchOption, ◌==◌, ⊤};
ghost use Rattle.std.specs.Option.{option_map, unwrap_or};
ghost use Rattle.std.specs.Iterator.{MakesProgress, YieldsFirstRef, item_count};
ghost use Rattle.console.specs.Words.{is_passed_over};

// Whether a line says nothing: it is empty, or begins with `#`.
pub fn passed_over(line: &[u8]) -> bool
    ensures { result ≡ is_passed_over line.now }
{
    matches!(line, [] | [b'#', ..])
}

// The words of a line, one by one. `rest` is what is left of the line, or None when the words are used up.
#[derive(Drop)]
pub struct Words<'a> {
    rest: Option<&'a [u8]>,
}

impl<'a> Words<'a> {
    ghost use Rattle.console.specs.Words.{spaced, text_left, words_left};

    pub fn new(line: &'a [u8]) -> Words<'a>
        ensures { text_left result ≡ Some line.now }
    {
        Words { rest: Some(line) }
    }

    // What is left of the line as a whole, empty where the words are used up.
    pub fn rest(&self) -> &'a [u8]
        ensures text { result.now ≡ unwrap_or (text_left self.now) [] }
        ensures words { result.now ≡ spaced (words_left self.now) }
    {
        self.rest.unwrap_or(b"")
    }

    // Whether the words are used up.
    pub fn is_done(&self) -> bool
        ensures { result ≡ (length (words_left self.now) == 0) }
    {
        self.rest.is_none()
    }
}

impl<'a> Iterator for Words<'a> {
    ghost use Rattle.console.specs.Words.{Took, first, text_left, words_left, WordsPartLines};

    type Item = &'a [u8];

    ghost next_gives = { YieldsFirstRef words_left };

    ghost remaining = { item_count words_left };

    // The next word, which may be empty, or None when the words are used up.
    fn next(&mut self) -> Option<&'a [u8]>
        ensures steps { YieldsFirstRef words_left self.old result self.new }
        ensures goes { MakesProgress (λ _. ⊤) (item_count words_left) self.old result self.new }
        ensures word { option_map (λ x. x.now) result ≡ first (words_left self.old) }
        ensures after { words_left self.new ≡ drop 1 (words_left self.old) }
        ensures took { Took (text_left self.old) (option_map (λ x. x.now) result) (text_left self.new) }
        ensures law { WordsPartLines }
    {
        let line = self.rest?;
        let len = word_len(line);
        self.rest = behind(line, len);
        Some(&line[..len])
    }
}

// How many bytes come before the first space, or before the end. A line is cut here and not by a slice's `split`, which would not
// tell what is left of the line.
fn word_len(line: &[u8]) -> usize
    ensures within { result ≤ length line.now }
    ensures before { (k : ℕ) → k < result → slice_index line.now k ≢ 32 }
    ensures found { result < length line.now → slice_index line.now result ≡ 32 }
{
    line.iter().position(|b| *b == b' ').unwrap_or(line.len())
}

// What follows the space behind the first `len` bytes, or None where the line ends with them.
fn behind(line: &[u8], len: usize) -> Option<&[u8]>
    requires { len ≤ length line.now }
    ensures { MatchOption result (length line.now ≤ len) (λ rest. (len < length line.now) × (rest.now ≡ drop (len + 1) line.now)) }
{
    line.get(len + 1..)
}
