// The number that a line shows of a refused call.
ghost use Rattle.std.specs.Prelude.{◌≡◌, ℕ};
ghost use Rattle.ledger.specs.Promises.{number_of};

use ledger::Refusal;

// A refusal that has a number: one of document 01's table, or a number alone.
pub trait Numbered {
    // its number
    ghost number: { Self → ℕ };

    // Ruled out: numbers from 0, and one number for all refusals.
    fn number(self) -> u8
        ensures { result ≡ number self };
}

impl Numbered for Refusal {
    ghost number = { number_of };

    fn number(self) -> u8 {
        Refusal::number(self)
    }
}

impl Numbered for u8 {
    ghost number = { λ n. n };

    fn number(self) -> u8 {
        self
    }
}
