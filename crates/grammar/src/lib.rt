// The grammar of rules: its definitions and what holds of it.
#![tactic(auto)]

ghost use Rattle.grammar.specs.Laws.{Laws};

// The laws of the grammar, which the reader of rule texts promises too.
#[tactic(auto, using(crate::proofs::Together::laws))]
pub fn laws_stand()
    ensures { Laws }
{}
