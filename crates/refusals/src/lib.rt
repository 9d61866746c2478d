// What every refusal has, whichever call refuses: a number and a place. docs/refusals.md has the list.
#![tactic(auto)]

ghost use Rattle.std.specs.Prelude.{◌≡◌, ℕ, Some};
ghost use Rattle.refusals.specs.Refusals.{refused_text};

use std::fmt;

// Why something is refused. Each layer has an enum of its own for what it can refuse.
pub trait Refusal {
    ghost number: { Self → ℕ };

    ghost place: { Self → ℕ };

    // The number of the cause.
    fn number(&self) -> u8
        ensures { result ≡ number self.now };

    // Where in the text the cause stands; 0 where it stands in none.
    fn place(&self) -> usize
        ensures { result ≡ place self.now };
}

// A refusal that prints as its number and place.
#[derive(Clone, Copy)]
pub struct Refused<'a, R: Refusal>(pub &'a R);

impl<R: Refusal> fmt::Display for Refused<'_, R> {
    ghost output = { λ r. Some (refused_text (R.number r.0.now) (R.place r.0.now)) };

    fn fmt<W: fmt::Write>(&self, f: &mut fmt::Formatter<W>) -> fmt::Result {
        let number = self.0.number();
        let place = self.0.place();
        write!(f, "refused {number} at {place}")
    }
}
