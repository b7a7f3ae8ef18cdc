// What every refusal can tell: the number of the check that failed, and the reason in words.
ghost use Rattle.std.specs.Prelude.{◌≡◌};
ghost use Rattle.network.specs.Checks.{Told};

use std::fmt;

// Why a call is refused. `Display` says the reason in words.
pub trait Refusal: fmt::Display {
    // what is told of it
    ghost told: { Self → Told };

    // The number of the check that failed.
    fn number(&self) -> u32
        ensures { result ≡ (told self.now).number };
}
