// Reads a rule text into nodes. docs/rule-language.md has the rules.
#![tactic(auto)]

mod chain;
mod conds;
mod fault;
mod given;
mod names;
mod node;
mod reader;
mod refusal;
mod rule;
mod statements;
mod sums;
mod taking;
mod text;

pub use names::Names;
pub use node::{Kind, Node};
pub use refusal::ReadRefusal;
pub use rule::ReadRule;
pub use text::{Reading, read};
