// The readers of the given part and of a whole rule.
ghost use Rattle.std.specs.Prelude.{[], MatchResult};
ghost use Rattle.grammar.specs.Grammar.{limits, given_name, given_names, rule};
ghost use Rattle.grammar.specs.Automaton.{need};
ghost use Rattle.rules.specs.Readers.{Given, Ruled, Fails};

use crate::fault::Fault;
use crate::reader::Reader;
use tokens::{Lexeme, Token};

// How many of `(`, `[`, `not`, `if`, `while` and `hold` may be open at once.
const DEPTH: u8 = 16;

impl Reader<'_, '_> {
    // Reads a rule into the table, and answers the given cells: bit c is cell c.
    pub(crate) fn rule(&mut self) -> Result<u32, Fault>
        ensures { MatchResult result (λ given. Ruled self.old self.new given) (Fails (need rule limits) self.old self.new) }
    {
        if !self.is(Lexeme::Given) {
            self.list(DEPTH)?;
            return Ok(0);
        }
        self.pass();
        let given = self.given_names()?;
        self.expect(Lexeme::Semicolon)?;
        self.list(DEPTH)?;
        Ok(given)
    }

    // Given names make no nodes, so they are no chain: their cells are a set.
    fn given_names(&mut self) -> Result<u32, Fault>
        ensures { MatchResult result (Given given_names [] self.old self.new) (Fails (need given_names limits) self.old self.new) }
    {
        let mut given = self.given_name()?;
        while self.is(Lexeme::Comma) {
            self.pass();
            let another = self.given_name()?;
            given |= another;
        }
        Ok(given)
    }

    fn given_name(&mut self) -> Result<u32, Fault>
        ensures { MatchResult result (Given given_name [] self.old self.new) (Fails (need given_name limits) self.old self.new) }
    {
        let Token::Name(word) = self.current.token else {
            return Err(Fault::Misfit(self.current.place));
        };
        let cell = self.name(word)?;
        Ok(1 << cell)
    }
}
