//! The trait of sources.

ghost use Rattle.std.specs.Prelude.{◌≡◌, ℕ, List, Option, ◌<◌, length};
ghost use Rattle.lf_io.specs.Faults.{HasCause};
ghost use Rattle.lf_io.specs.Steps.{Pulls};

/// What a pull answers: how many bytes it took, the end, or a fault.
#[derive(Clone, Copy, Debug, PartialEq, Eq)]
pub enum Pulled {
    Took(usize),
    End,
    Failed,
}

/// What bytes come from.
pub trait Source {
    /// The bytes that are still to come, where the source tells them.
    ghost left: { Self → Option (List ℕ) };

    /// A count of faults. A call that fails raises it, and no other does.
    ghost faults: { Self → ℕ };

    /// After a pull that took `n` bytes, `into` begins with them.
    fn pull(&mut self, into: &mut [u8]) -> Pulled
        requires { 0 < length into.old }
        ensures bytes { Pulls (left self.old) (left self.new) into.new result }
        ensures faults { HasCause (faults self.old) (faults self.new) (result ≡ Pulled.Failed) };
}
