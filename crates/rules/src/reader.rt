ghost use Rattle.std.specs.Prelude.{◌≡◌, ◌+◌, ◌^◌, ◌<◌, true, length};
ghost use Rattle.tokens.specs.Tokens.{names_after, names_of};
ghost use Rattle.tokens.specs.Lexing.{with_token, digits_only};
ghost use Rattle.tokens.specs.declared.token.Token.TheVariants.{EndOfText};
ghost use Rattle.rules.specs.Names.{words_of};

use crate::names::Names;
use crate::node::Node;
use tokens::Lexed;

// Reads the tokens of a text one by one and writes nodes into a table. `names` are those before the current token, and `count` nodes have
// been counted, also those that a full table had no place for, since that is refused last. There is a number for each node that the rest
// can have.
#[derive(Drop)]
pub(crate) struct Reader<'a, 't> {
    pub(crate) text: &'a [u8],
    pub(crate) current: Lexed<'a>,
    pub(crate) names: Names<'a>,
    pub(crate) nodes: &'t mut [Node],
    pub(crate) count: usize,
    ghost ended: { (current.token ≡ EndOfText → current.place ≡ length text.now) },
    ghost digits: { digits_only current.token ≡ true },
    ghost numbered: { names_after (words_of names) (with_token (words_of names) current.place current.token current.end text.now) ≡ names_of text.now },
    ghost roomy: { count + length (with_token (words_of names) current.place current.token current.end text.now) < 2 ^ 64 },
}
