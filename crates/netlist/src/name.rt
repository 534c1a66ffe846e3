ghost use Rattle.std.specs.Prelude.{◌≡◌, IfOk, string_bytes, string_len};
ghost use Rattle.std.specs.Int.{IsInRange};
ghost use Rattle.netlist.specs.Limits.{Named, Shown};

use std::alloc::{AllocError, Global};

/// A module's name: 1 to 16 bytes, each from 33 to 126.
#[derive(Drop)]
pub struct Name {
    text: String,
    ghost short: { IsInRange 1 16 (string_len text) },
    ghost shown: { Shown (string_bytes text) },
}

impl Name {
    pub(crate) fn new(heap: Global, text: &str) -> Result<Name, AllocError>
        requires { Named text.now }
        ensures { IfOk result (λ n. string_bytes n.text ≡ text.now) }
    {
        let text = String::from_str(heap, text)?;
        Ok(Name { text })
    }

    pub fn as_str(&self) -> &str
        ensures { result.now ≡ string_bytes self.now.text }
    {
        self.text.as_str()
    }
}
