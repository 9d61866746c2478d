ghost use Rattle.std.specs.Prelude.{◌≡◌, ◌≤◌, length};
ghost use Rattle.std.specs.List.{prefix_len};
ghost use Rattle.tokens.specs.Classes.{belongs};

// The classes of bytes that tokens are made of or parted by. Clauses name a class, so it is an enum and no closure.
#[derive(Clone, Copy, PartialEq, Eq, Debug)]
pub enum Class {
    Blank,
    Letter,
    Digit,
}

impl Class {
    // Whether a byte is of this class.
    pub fn has(self, b: u8) -> bool
        ensures { result ≡ belongs self b }
    {
        matches!(
            (self, b as char),
            (Class::Blank, ' ' | '\n') | (Class::Letter, 'a'..='z') | (Class::Digit, '0'..='9')
        )
    }

    // How many bytes at the front are of this class.
    pub(crate) fn run(self, text: &[u8]) -> usize
        ensures value { result ≡ prefix_len (belongs self) text.now }
        ensures within { result ≤ length text.now }
    {
        text.iter().take_while(|b| self.has(**b)).count()
    }
}
