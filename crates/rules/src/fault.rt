// What a token can do to a text: it fits no rule, or passes a limit, at that place.
#[derive(Clone, Copy)]
pub(crate) enum Fault {
    Misfit(usize),
    Limit(usize),
}
