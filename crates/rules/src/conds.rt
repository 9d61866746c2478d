// The readers of conds and primes.
ghost use Rattle.std.specs.Prelude.{◌≡◌};
ghost use Rattle.tokens.specs.Lexing.{lexeme_of};
ghost use Rattle.grammar.specs.Grammar.{cond, prime};
ghost use Rattle.rules.specs.Readers.{comparer_of, Compares, Gives};

use crate::chain::{Chain, Operator};
use crate::fault::Fault;
use crate::node::Kind;
use crate::reader::Reader;
use tokens::Lexeme;

impl Reader<'_, '_> {
    #[cycle(cond_prime)]
    pub(crate) fn cond(&mut self, depth: u8) -> Result<usize, Fault>
        ensures { Gives cond depth self.old self.new result }
    {
        self.chain(
            Chain::Cond,
            depth,
            |r, d|
                ensures { Gives prime d r.entry.now r.exit.now result }
            { r.prime(d) },
        )
    }

    #[cycle(cond_prime)]
    fn prime(&mut self, depth: u8) -> Result<usize, Fault>
        ensures { Gives prime depth self.old self.new result }
    {
        match self.current.token.lexeme() {
            Some(Lexeme::True) => Ok(self.leaf(Kind::True)),
            Some(Lexeme::False) => Ok(self.leaf(Kind::False)),
            Some(Lexeme::Not) => {
                let inner = self.deeper(depth)?;
                let place = self.pass();
                let part = self.prime(inner)?;
                Ok(self.put(place, Kind::Not(part)))
            }
            Some(Lexeme::OpenSquare) => {
                let inner = self.deeper(depth)?;
                self.pass();
                let root = self.cond(inner)?;
                self.expect(Lexeme::CloseSquare)?;
                Ok(root)
            }
            _ => self.comparison(depth),
        }
    }

    // A prime that begins with a sum.
    fn comparison(&mut self, depth: u8) -> Result<usize, Fault>
        requires { Compares (lexeme_of self.old.current.token) }
        ensures { Gives prime depth self.old self.new result }
    {
        let left = self.sum(depth)?;
        let Some(comparer) = self.comparer() else {
            return Err(Fault::Misfit(self.current.place));
        };
        let place = self.pass();
        let right = self.sum(depth)?;
        Ok(self.put(place, comparer.kind(left, right)))
    }

    fn comparer(&self) -> Option<Operator>
        ensures { result ≡ comparer_of (lexeme_of self.now.current.token) }
    {
        match self.current.token.lexeme()? {
            Lexeme::Equal => Some(Operator::Equal),
            Lexeme::AtMost => Some(Operator::AtMost),
            _ => None,
        }
    }
}
