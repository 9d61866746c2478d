ghost use Rattle.std.specs.Prelude.{◌≡◌, length, MatchResult};
ghost use Rattle.grammar.specs.Laws.{Laws};
ghost use Rattle.rules.specs.Accepted.{Accepted};
ghost use Rattle.rules.specs.Reading.{Reads, refused, OneOutcome};

use crate::names::Names;
use crate::node::Node;
use crate::reader::Reader;
use crate::refusal::ReadRefusal;
use tokens::{Token, next_token};

// How many bytes a text may have.
const LONGEST: usize = 16384;

// What a text was read as: how many nodes it has in the table, its names, and the given cells: a set that one word
// holds, bit c for cell c.
#[derive(Clone, Copy)]
pub struct Reading<'a> {
    pub(crate) count: usize,
    pub(crate) names: Names<'a>,
    pub(crate) given: u32,
}

// Reads a text into a table: its nodes come first and the rest is blank. What a refused reading leaves in the table is any.
pub fn read<'a>(text: &'a [u8], table: &mut [Node]) -> Result<Reading<'a>, ReadRefusal>
    ensures outcome { MatchResult result (λ reading. Accepted text.now (length table.old) reading table.new) (λ f. Reads text.now (length table.old) (refused f)) }
    ensures places { length table.new ≡ length table.old }
    ensures laws { Laws }
    ensures once { OneOutcome }
{
    if text.len() > LONGEST {
        return Err(ReadRefusal::TooLong);
    }
    let first = next_token(text, 0);
    if let Token::EndOfText = first.token {
        return Err(ReadRefusal::Empty);
    }
    let mut reader = Reader {
        text,
        current: first,
        names: Names::new(),
        nodes: table,
        count: 0,
    };
    let given = reader.rule()?;
    let Token::EndOfText = reader.current.token else {
        return Err(ReadRefusal::Misfit(reader.current.place));
    };
    let Reader {
        names,
        nodes,
        count,
        ..
    } = reader;
    if count > nodes.len() {
        return Err(ReadRefusal::TableFull);
    }
    nodes[count..].fill(Node::BLANK);
    Ok(Reading {
        count,
        names,
        given,
    })
}
