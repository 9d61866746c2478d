// How many lines were answered, and how.
ghost use Rattle.std.specs.Prelude.{◌≡◌, Some};
ghost use Rattle.console.specs.Tally.{counted, summary};

use std::fmt;

// The lines that were answered, and among them the commands that were refused and the lines that were errors.
// A count stays at u64::MAX once it is there.
#[derive(Clone, Copy, Default)]
pub struct Tally {
    commands: u64,
    refused: u64,
    errors: u64,
}

impl Tally {
    pub fn new() -> Tally
        ensures { result ≡ record { commands = 0; refused = 0; errors = 0 } }
    {
        Tally::default()
    }

    // A command was done.
    pub fn ok(&mut self)
        ensures { self.new ≡ record self.old { commands = counted self.old.commands } }
    {
        self.commands = one_more(self.commands);
    }

    // A command was refused.
    pub fn refused(&mut self)
        ensures { self.new ≡ record self.old { commands = counted self.old.commands; refused = counted self.old.refused } }
    {
        self.ok();
        self.refused = one_more(self.refused);
    }

    // A line was an error; it is counted as a command too.
    pub fn error(&mut self)
        ensures { self.new ≡ record self.old { commands = counted self.old.commands; errors = counted self.old.errors } }
    {
        self.ok();
        self.errors = one_more(self.errors);
    }
}

fn one_more(count: u64) -> u64
    ensures { result ≡ counted count }
{
    count.saturating_add(1)
}

impl fmt::Display for Tally {
    ghost output = { λ t. Some (summary t.commands t.refused t.errors) };

    fn fmt<W: fmt::Write>(&self, f: &mut fmt::Formatter<W>) -> fmt::Result {
        let Tally {
            commands,
            refused,
            errors,
        } = self;
        write!(f, "{commands} commands, {refused} refused, {errors} errors")
    }
}
