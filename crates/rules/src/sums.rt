// The readers of sums, terms and factors.
ghost use Rattle.grammar.specs.Grammar.{sum, term, factor};
ghost use Rattle.rules.specs.Readers.{Gives};

use crate::chain::Chain;
use crate::fault::Fault;
use crate::node::Kind;
use crate::reader::Reader;
use tokens::{Lexeme, Token};

impl Reader<'_, '_> {
    // Each of these reads one sort into the table, with at most `depth` more open, and answers the number of its node.
    #[cycle(factor_sum_term)]
    pub(crate) fn sum(&mut self, depth: u8) -> Result<usize, Fault>
        ensures { Gives sum depth self.old self.new result }
    {
        self.chain(
            Chain::Sum,
            depth,
            |r, d|
                ensures { Gives term d r.entry.now r.exit.now result }
            { r.term(d) },
        )
    }

    #[cycle(factor_sum_term)]
    fn term(&mut self, depth: u8) -> Result<usize, Fault>
        ensures { Gives term depth self.old self.new result }
    {
        self.chain(
            Chain::Term,
            depth,
            |r, d|
                ensures { Gives factor d r.entry.now r.exit.now result }
            { r.factor(d) },
        )
    }

    #[cycle(factor_sum_term)]
    fn factor(&mut self, depth: u8) -> Result<usize, Fault>
        ensures { Gives factor depth self.old self.new result }
    {
        let place = self.current.place;
        match self.current.token {
            Token::Number(digits) => {
                let value = self.number(digits)?;
                Ok(self.put(place, Kind::Number(value)))
            }
            Token::Name(word) => {
                let cell = self.name(word)?;
                Ok(self.put(place, Kind::Cell(cell)))
            }
            _ => {
                if !self.is(Lexeme::Open) {
                    return Err(Fault::Misfit(place));
                }
                let inner = self.deeper(depth)?;
                self.pass();
                let root = self.sum(inner)?;
                self.expect(Lexeme::Close)?;
                Ok(root)
            }
        }
    }
}
