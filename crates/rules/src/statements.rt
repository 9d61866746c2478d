// The readers of lists and statements.
ghost use Rattle.std.specs.Prelude.{◌≡◌};
ghost use Rattle.tokens.specs.declared.lexeme.Lexeme.TheVariants.{If, While, Hold};
ghost use Rattle.tokens.specs.declared.token.Token.TheVariants.{Name};
ghost use Rattle.grammar.specs.Grammar.{list, statement};
ghost use Rattle.rules.specs.Readers.{Begins, Gives};

use crate::chain::Chain;
use crate::fault::Fault;
use crate::node::Kind;
use crate::reader::Reader;
use tokens::{Lexeme, Token};

impl<'a> Reader<'a, '_> {
    #[cycle(choice_holding_list_repetition_statement)]
    pub(crate) fn list(&mut self, depth: u8) -> Result<usize, Fault>
        ensures { Gives list depth self.old self.new result }
    {
        self.chain(
            Chain::List,
            depth,
            |r, d|
                ensures { Gives statement d r.entry.now r.exit.now result }
            { r.statement(d) },
        )
    }

    #[cycle(choice_holding_list_repetition_statement)]
    fn statement(&mut self, depth: u8) -> Result<usize, Fault>
        ensures { Gives statement depth self.old self.new result }
    {
        if let Token::Name(word) = self.current.token {
            return self.assignment(word, depth);
        }
        match self.current.token.lexeme() {
            Some(Lexeme::Skip) => Ok(self.leaf(Kind::Skip)),
            Some(Lexeme::Leave) => Ok(self.leaf(Kind::Leave)),
            Some(Lexeme::If) => self.choice(depth),
            Some(Lexeme::While) => self.repetition(depth),
            Some(Lexeme::Hold) => self.holding(depth),
            _ => Err(Fault::Misfit(self.current.place)),
        }
    }

    // The statements that the current token begins: a name, `if`, `while` and `hold`.
    fn assignment(&mut self, word: &'a [u8], depth: u8) -> Result<usize, Fault>
        requires { self.old.current.token ≡ Name word }
        ensures { Gives statement depth self.old self.new result }
    {
        let place = self.current.place;
        let cell = self.name(word)?;
        self.expect(Lexeme::Becomes)?;
        let sum = self.sum(depth)?;
        Ok(self.put(place, Kind::Assign(cell, sum)))
    }

    #[cycle(choice_holding_list_repetition_statement)]
    fn choice(&mut self, depth: u8) -> Result<usize, Fault>
        requires { Begins If self.old }
        ensures { Gives statement depth self.old self.new result }
    {
        let inner = self.deeper(depth)?;
        let place = self.pass();
        let test = self.cond(inner)?;
        self.expect(Lexeme::Then)?;
        let first = self.list(inner)?;
        self.expect(Lexeme::Else)?;
        let second = self.list(inner)?;
        self.expect(Lexeme::End)?;
        Ok(self.put(place, Kind::If(test, first, second)))
    }

    #[cycle(choice_holding_list_repetition_statement)]
    fn repetition(&mut self, depth: u8) -> Result<usize, Fault>
        requires { Begins While self.old }
        ensures { Gives statement depth self.old self.new result }
    {
        let inner = self.deeper(depth)?;
        let place = self.pass();
        let test = self.cond(inner)?;
        self.expect(Lexeme::Do)?;
        let body = self.list(inner)?;
        self.expect(Lexeme::End)?;
        Ok(self.put(place, Kind::While(test, body)))
    }

    #[cycle(choice_holding_list_repetition_statement)]
    fn holding(&mut self, depth: u8) -> Result<usize, Fault>
        requires { Begins Hold self.old }
        ensures { Gives statement depth self.old self.new result }
    {
        let inner = self.deeper(depth)?;
        let place = self.pass();
        let latch = self.latch()?;
        self.expect(Lexeme::Do)?;
        let body = self.list(inner)?;
        self.expect(Lexeme::End)?;
        Ok(self.put(place, Kind::Hold(latch, body)))
    }
}
