ghost use Rattle.std.specs.Prelude.{◌≡◌, ◌≤◌, length, take};

// How many names a rule may have.
const NAMES: usize = 32;

// The names of a rule in the order of their cells, each the stretch of the text where it first stands. A rule hands out a copy of them,
// so plain places and their count hold them: a vector of fixed places is not Copy.
#[derive(Clone, Copy)]
pub struct Names<'a> {
    pub(crate) words: [&'a [u8]; NAMES],
    pub(crate) count: usize,
    ghost places: { length words ≡ 32 },
    ghost few: { count ≤ 32 },
}

impl<'a> Names<'a> {
    ghost use Rattle.std.specs.Option.{option_map};
    ghost use Rattle.std.specs.List.{slice_get, position};
    ghost use Rattle.std.specs.Str.{bytes_eq};
    ghost use Rattle.rules.specs.Names.{words_of, Celled};

    pub(crate) fn new() -> Names<'a>
        ensures { result.count ≡ 0 }
    {
        Names {
            words: [b""; NAMES],
            count: 0,
        }
    }

    // How many there are.
    pub fn len(&self) -> usize
        ensures { result ≡ self.now.count }
    {
        self.count
    }

    // The name of a cell.
    pub fn get(&self, cell: usize) -> Option<&'a [u8]>
        ensures { option_map (λ x. x.now) result ≡ slice_get (words_of self.now) cell }
    {
        self.words[..self.count].get(cell).copied()
    }

    // The cell of a word, which is added where it is new; None where there is no place for it.
    pub(crate) fn cell(&mut self, word: &'a [u8]) -> Option<usize>
        ensures { Celled word.now self.old self.new result }
    {
        if let Some(cell) = self.position(word) {
            return Some(cell);
        }
        let cell = self.count;
        if cell == NAMES {
            return None;
        }
        self.words[cell] = word;
        self.count += 1;
        Some(cell)
    }

    // The cell of a word that is among the names.
    fn position(&self, word: &[u8]) -> Option<usize>
        ensures { result ≡ position (λ x. bytes_eq x.now word.now) (take self.now.count self.now.words) }
    {
        self.words[..self.count]
            .iter()
            .position(|known| *known == word)
    }
}
