ghost use Rattle.std.specs.Prelude.{Some};
ghost use Rattle.trace_text.specs.Lines.{command_words};

use std::fmt;

/// What is asked of a run, in the words of the arguments.
#[derive(Clone, Copy, PartialEq, Eq, Debug)]
pub enum Command {
    Prime,
    Hold(u8),
    Step,
    /// So many steps, one after another.
    Steps(u32),
    Firings(u8),
    Fill(u8),
    Front(u8),
}

impl fmt::Display for Command {
    ghost output = { λ x. Some (command_words x) };

    fn fmt<W: fmt::Write>(&self, f: &mut fmt::Formatter<W>) -> fmt::Result {
        match *self {
            Command::Prime => write!(f, "prime"),
            Command::Hold(v) => write!(f, "hold {v}"),
            Command::Step => write!(f, "step"),
            Command::Steps(n) => write!(f, "step {n}"),
            Command::Firings(v) => write!(f, "firings {v}"),
            Command::Fill(e) => write!(f, "fill {e}"),
            Command::Front(e) => write!(f, "front {e}"),
        }
    }
}
