// The readers of what operators join: the terms of a sum, the factors of a term, the primes of a cond, the statements of a list.
ghost use Rattle.std.specs.Prelude.{◌≡◌};
ghost use Rattle.tokens.specs.Lexing.{lexeme_of};
ghost use Rattle.rules.specs.Readers.{operator_of, operator_kind, whole_of, part_of, Gives};

use crate::fault::Fault;
use crate::node::Kind;
use crate::reader::Reader;
use tokens::Lexeme;

// What is read as parts with operators between them: the clauses of its reader are by the sort that it names.
#[derive(Clone, Copy)]
pub(crate) enum Chain {
    Sum,
    Term,
    Cond,
    List,
}

// What makes a node of two others. No function hands out a function, so each is named here, and `kind` has what it makes.
#[derive(Clone, Copy)]
pub(crate) enum Operator {
    Add,
    Sub,
    Mul,
    Equal,
    AtMost,
    And,
    Then,
}

impl Operator {
    pub(crate) fn kind(self, left: usize, right: usize) -> Kind
        ensures { result ≡ operator_kind self left right }
    {
        match self {
            Operator::Add => Kind::Add(left, right),
            Operator::Sub => Kind::Sub(left, right),
            Operator::Mul => Kind::Mul(left, right),
            Operator::Equal => Kind::Equal(left, right),
            Operator::AtMost => Kind::AtMost(left, right),
            Operator::And => Kind::And(left, right),
            Operator::Then => Kind::Then(left, right),
        }
    }
}

impl Reader<'_, '_> {
    // Reads parts, by `part`, as long as an operator joins another, and writes a node for each operator, from left to right.
    pub(crate) fn chain<F: Fn(&mut Reader<'_, '_>, u8) -> Result<usize, Fault>>(
        &mut self,
        chain: Chain,
        depth: u8,
        part: F,
    ) -> Result<usize, Fault>
        requires callable { (r : _) → F.pre part r depth }
        requires reads { (r : _) (o : _) (q : _) → F.post part r depth o q → Gives (part_of chain) depth r.now q.now o }
        ensures { Gives (whole_of chain) depth self.old self.new result }
    {
        let mut left = part(self, depth)?;
        while let Some(operator) = self.operator(chain) {
            let place = self.pass();
            let right = part(self, depth)?;
            left = self.put(place, operator.kind(left, right));
        }
        Ok(left)
    }

    // The operator that the current token is, where it joins parts of this chain.
    fn operator(&self, chain: Chain) -> Option<Operator>
        ensures { result ≡ operator_of chain (lexeme_of self.now.current.token) }
    {
        match (chain, self.current.token.lexeme()?) {
            (Chain::Sum, Lexeme::Plus) => Some(Operator::Add),
            (Chain::Sum, Lexeme::Minus) => Some(Operator::Sub),
            (Chain::Term, Lexeme::Times) => Some(Operator::Mul),
            (Chain::Cond, Lexeme::And) => Some(Operator::And),
            (Chain::List, Lexeme::Semicolon) => Some(Operator::Then),
            _ => None,
        }
    }
}
