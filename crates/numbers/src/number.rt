ghost use Rattle.std.specs.Prelude.{◌≡◌, ℕ};

// A kind whose values have numbers. A trait of its own and not a `From`, of which a proof at any such kind would know only
// that some number is given.
pub trait Numbered: Copy {
    ghost number: { Self → ℕ };

    fn number(self) -> u8
        ensures { result ≡ number self };
}
