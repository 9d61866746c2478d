ghost use Rattle.std.specs.Prelude.{◌≡◌, take};

use crate::names::Names;
use crate::node::Node;
use crate::text::Reading;

// A rule that was read. It borrows the table with its nodes, so that no other text can be read into it meanwhile.
#[derive(Drop)]
pub struct ReadRule<'a, 't> {
    pub(crate) nodes: &'t [Node],
    pub(crate) names: Names<'a>,
    pub(crate) given: u32,
}

impl<'a> Reading<'a> {
    // The rule over the table that it was read into.
    pub fn over<'t>(self, table: &'t [Node]) -> ReadRule<'a, 't>
        ensures nodes { result.nodes.now ≡ take self.entry.count table.now }
        ensures names { result.names ≡ self.entry.names }
        ensures given { result.given ≡ self.entry.given }
    {
        let Reading {
            count,
            names,
            given,
        } = self;
        let nodes = table.get(..count).unwrap_or(table);
        ReadRule {
            nodes,
            names,
            given,
        }
    }
}

impl<'a, 't> ReadRule<'a, 't> {
    // Its nodes, the root last.
    pub fn nodes(&self) -> &'t [Node]
        ensures { result.now ≡ self.now.nodes.now }
    {
        self.nodes
    }

    pub fn names(&self) -> Names<'a>
        ensures { result ≡ self.now.names }
    {
        self.names
    }

    // The given cells: bit c is cell c.
    pub fn given(&self) -> u32
        ensures { result ≡ self.now.given }
    {
        self.given
    }
}
