// A node of a rule: its place in the text and its kind. A part that is a node is given by its number in the table: the table is lent by
// the caller, and its size has a refusal of its own, so no part is boxed.
#[derive(Clone, Copy, PartialEq, Eq, Debug)]
pub struct Node {
    pub place: usize,
    pub kind: Kind,
}

// What construct a node is, with its parts.
#[derive(Clone, Copy, PartialEq, Eq, Debug)]
pub enum Kind {
    Number(i64),
    Cell(usize),
    Add(usize, usize),
    Sub(usize, usize),
    Mul(usize, usize),
    True,
    False,
    Equal(usize, usize),
    AtMost(usize, usize),
    And(usize, usize),
    Not(usize),
    Skip,
    Leave,
    Assign(usize, usize),
    If(usize, usize, usize),
    While(usize, usize),
    Hold(usize, usize),
    Then(usize, usize),
}

impl Node {
    // What a place of a table holds that no node of the rule needs.
    pub const BLANK: Node = Node {
        place: 0,
        kind: Kind::Skip,
    };
}
