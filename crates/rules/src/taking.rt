// How a reader takes tokens and writes nodes.
ghost use Rattle.std.specs.Prelude.{◌≡◌, ℕ, ◌+◌, ◌^◌, ◌<◌, true, nat_lt, nat_le, length, pos, if◌then◌else◌, Some, None, Ok, Err, MatchResult};
ghost use Rattle.console.specs.Numbers.{value_after};
ghost use Rattle.tokens.specs.Tokens.{fixed, number};
ghost use Rattle.tokens.specs.Lexing.{some_digits, lexeme_of, is_lexeme};
ghost use Rattle.tokens.specs.declared.lexeme.Lexeme.{Lexeme as ALexeme};
ghost use Rattle.tokens.specs.declared.token.Token.TheVariants.{Name, Number};
ghost use Rattle.grammar.specs.Grammar.{within};
ghost use Rattle.grammar.specs.Automaton.{this, latch};
ghost use Rattle.rules.specs.Readers.{Passable, Past, Settled, Along, Advanced, current, rest, names_in, Wrote, Leaf, Fails, Named, Overnamed, Valued, Overvalued};
ghost use Rattle.rules.specs.declared.fault.Fault.TheVariants.{Limit};

use crate::fault::Fault;
use crate::names::Names;
use crate::node::{Kind, Node};
use crate::reader::Reader;
use console::unsigned;
use tokens::{Lexeme, Token, next_token};

// How many letters a word may have.
const LETTERS: usize = 12;

// The highest latch.
const LAST_LATCH: u64 = 7;

// The value of digits, where a number may have it.
fn literal(digits: &[u8]) -> Option<i64>
    requires { some_digits digits.now ≡ true }
    ensures { result ≡ (if nat_lt (value_after 0 digits.now) (2 ^ 63) then Some (pos (value_after 0 digits.now)) else None) }
{
    i64::try_from(unsigned(digits)?).ok()
}

// The value of digits, where a latch may have it.
fn latch_number(digits: &[u8]) -> Option<usize>
    requires { some_digits digits.now ≡ true }
    ensures { result ≡ (if nat_le (value_after 0 digits.now) 7 then Some (value_after 0 digits.now) else None) }
{
    let latch = unsigned(digits)?;
    (latch <= LAST_LATCH).then_some(latch as usize)
}

impl<'a> Reader<'a, '_> {
    // Whether the current token is this lexeme.
    pub(crate) fn is(&self, wanted: Lexeme) -> bool
        ensures { result ≡ is_lexeme (lexeme_of self.now.current.token) wanted }
    {
        self.current.token.is(wanted)
    }

    // The depth inside what the current token opens, or it passes the limit of what is open.
    pub(crate) fn deeper(&self, depth: u8) -> Result<u8, Fault>
        ensures { elim result [ Ok inner ↦ depth ≡ inner + 1 | Err f ↦ (depth ≡ 0) × (f ≡ Limit self.now.current.place) ] }
    {
        depth.checked_sub(1).ok_or(Fault::Limit(self.current.place))
    }

    // Goes past the current token, which is none that would add to the names.
    fn advance(&mut self)
        requires { Settled (current self.old) (names_in self.old) }
        ensures { Advanced self.old self.new }
    {
        self.current = next_token(self.text, self.current.end);
    }

    // Goes past the current token, which is a number or a lexeme, and answers its place.
    pub(crate) fn pass(&mut self) -> usize
        requires { Passable self.old.current.token }
        ensures past { (m : ALexeme) → is_lexeme (lexeme_of self.old.current.token) m ≡ true → Past (fixed m) self.old self.new }
        ensures left { length (rest self.old) ≡ length (rest self.new) + 1 }
        ensures count { self.new.count ≡ self.old.count }
        ensures along { Along self.old self.new }
        ensures place { result ≡ self.old.current.place }
    {
        let place = self.current.place;
        self.advance();
        place
    }

    // Goes past the current token, which has to be this lexeme.
    pub(crate) fn expect(&mut self, wanted: Lexeme) -> Result<(), Fault>
        ensures { MatchResult result (λ _. Past (fixed wanted) self.old self.new) (Fails (this wanted) self.old self.new) }
    {
        if !self.is(wanted) {
            return Err(Fault::Misfit(self.current.place));
        }
        self.pass();
        Ok(())
    }

    // Goes past the current token, which is the name `word`, and answers its cell.
    pub(crate) fn name(&mut self, word: &'a [u8]) -> Result<usize, Fault>
        requires { self.old.current.token ≡ Name word }
        ensures { MatchResult result (λ cell. Named cell self.old self.new) (Overnamed word.now self.old self.new) }
    {
        if word.len() > LETTERS {
            return Err(Fault::Limit(self.current.place));
        }
        let cell = self
            .names
            .cell(word)
            .ok_or(Fault::Limit(self.current.place))?;
        self.advance();
        Ok(cell)
    }

    // Goes past the current token, which is the number of `digits`, and answers its value.
    pub(crate) fn number(&mut self, digits: &'a [u8]) -> Result<i64, Fault>
        requires { self.old.current.token ≡ Number digits }
        ensures { MatchResult result (Valued (value_after 0 digits.now) self.old self.new) (Overvalued (value_after 0 digits.now) self.old self.new) }
    {
        let value = literal(digits).ok_or(Fault::Limit(self.current.place))?;
        self.advance();
        Ok(value)
    }

    // Goes past the current token, which has to be the number of a latch.
    pub(crate) fn latch(&mut self) -> Result<usize, Fault>
        ensures { MatchResult result (λ k. (nat_le k 7 ≡ true) × Past (number k) self.old self.new) (λ f. (d : ℕ) → Fails (latch (within d)) self.old self.new f) }
    {
        let Token::Number(digits) = self.current.token else {
            return Err(Fault::Misfit(self.current.place));
        };
        let latch = latch_number(digits).ok_or(Fault::Limit(self.current.place))?;
        self.advance();
        Ok(latch)
    }

    // Writes a node, where the table still has a place for it, and answers its number.
    pub(crate) fn put(&mut self, place: usize, kind: Kind) -> usize
        requires { self.old.count + length (rest self.old) + 1 < 2 ^ 64 }
        ensures wrote { Wrote (record { place = place; kind = kind }) self.old self.new }
        ensures number { result ≡ self.old.count }
    {
        let number = self.count;
        if number < self.nodes.len() {
            self.nodes[number] = Node { place, kind };
        }
        self.count += 1;
        number
    }

    // Goes past the current lexeme, and writes the node that it is, which has no parts.
    pub(crate) fn leaf(&mut self, kind: Kind) -> usize
        requires { Passable self.old.current.token }
        ensures { (m : ALexeme) → is_lexeme (lexeme_of self.old.current.token) m ≡ true → Leaf (fixed m) kind self.old self.new result }
    {
        let place = self.pass();
        self.put(place, kind)
    }
}
