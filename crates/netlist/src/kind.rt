ghost use Rattle.std.specs.Prelude.{◌≡◌};
ghost use Rattle.netlist.specs.Faults.{kind_at};

use crate::refusal::Cause;

/// What a module is; the number is its kind byte in a file.
#[derive(Clone, Copy, PartialEq, Eq, Debug)]
pub enum Kind {
    /// A core in its shell.
    Block = 0,
    RelayStation = 1,
}

impl TryFrom<u8> for Kind {
    type Error = Cause;

    ghost try_from_gives = { λ code r. r ≡ kind_at code };

    fn try_from(code: u8) -> Result<Kind, Cause> {
        match code {
            0 => Ok(Kind::Block),
            1 => Ok(Kind::RelayStation),
            _ => Err(Cause::ValueOutOfRange),
        }
    }
}
