// Why a call is refused, told in numbers.
ghost use Rattle.std.specs.Prelude.{ℕ, ◌≡◌};

// An error that has a number of its own, and with some numbers a value beside it; 0 stands where there is none.
pub trait Refusal {
    ghost number: { Self → ℕ };

    ghost value: { Self → ℕ };

    fn number(self) -> u8
        ensures { result ≡ number self };

    fn value(self) -> u8
        ensures { result ≡ value self };
}
