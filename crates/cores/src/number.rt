ghost use Rattle.std.specs.Prelude.{◌≡◌, ◌-◌, ◌<◌, ◌≤◌, MatchOption, MatchResult};

// The most modules that a chip may have.
pub(crate) const MODULES: usize = 64;

/// The number of a module, from 1 to 64.
#[derive(Clone, Copy, PartialEq, Eq, Debug)]
pub struct Number {
    value: u8,
    ghost low: { 1 ≤ value },
    ghost high: { value ≤ 64 },
}

/// What is not the number of a module.
#[derive(Clone, Copy, PartialEq, Eq, Debug)]
pub struct NoNumber(pub u8);

impl TryFrom<u8> for Number {
    type Error = NoNumber;

    ghost try_from_gives = { λ value r. MatchResult r (λ v. v.value ≡ value) (λ e. (e.0 ≡ value) × (1 ≤ value → value ≤ 64 → ⊥)) };

    fn try_from(value: u8) -> Result<Number, NoNumber> {
        if (1..=MODULES).contains(&(value as usize)) {
            Ok(Number { value })
        } else {
            Err(NoNumber(value))
        }
    }
}

impl From<Number> for u8 {
    ghost from_gives = { λ number value. value ≡ number.value };

    fn from(number: Number) -> u8 {
        number.get()
    }
}

impl Number {
    pub fn new(value: u8) -> Option<Number>
        ensures { MatchOption result (1 ≤ value → value ≤ 64 → ⊥) (λ v. v.value ≡ value) }
    {
        Number::try_from(value).ok()
    }

    pub fn get(self) -> u8
        ensures { result ≡ self.value }
    {
        self.value
    }

    /// Its index in an array over the modules.
    pub fn index(self) -> usize
        ensures same { result ≡ self.value - 1 }
        ensures within { result < 64 }
    {
        (self.value - 1) as usize
    }
}
