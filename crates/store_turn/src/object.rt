//! What takes turns.

ghost use Rattle.std.specs.Prelude.{◌≡◌, Bool, true, IfOk, OnErr};

pub use std::alloc::AllocError as NoMemory;

/// A value whose calls are told in advance what they do and what they answer.
pub trait Object: Send + Drop {
    /// What a call asks for.
    type Op: Send + Drop;

    /// What a call answers.
    type Answer;

    /// The object after an op.
    ghost next: { Self → Self.Op → Self };

    /// What it answers to an op.
    ghost answer: { Self → Self.Op → Self.Answer };

    /// Which ops may come.
    ghost fits: { Self.Op → Type 0 };

    /// Which answers say that nothing changed.
    ghost is_quiet: { Self.Answer → Bool };

    /// Does an op. At `NoMemory`, which is a free answer, the object is as before. At a quiet answer it is, too.
    fn apply(&mut self, op: &Self::Op) -> Result<Self::Answer, NoMemory>
        requires { fits op.now }
        ensures next { IfOk result (λ _. self.new ≡ next self.old op.now) }
        ensures answer { IfOk result (λ given. given ≡ answer self.old op.now) }
        ensures quiet { IfOk result (λ given. is_quiet given ≡ true → self.new ≡ self.old) }
        ensures err { OnErr result (self.new ≡ self.old) };

    /// Whether the answer says that nothing changed. It depends on the answer alone.
    fn quiet(given: &Self::Answer) -> bool
        ensures { result ≡ is_quiet given.now };
}
