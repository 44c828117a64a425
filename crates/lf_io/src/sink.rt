//! The trait of sinks, and how a whole text is put.

ghost use Rattle.std.specs.Prelude.{◌≡◌, ℕ, List, Option, ◌<◌, length};
ghost use Rattle.lf_io.specs.Faults.{HasCause};
ghost use Rattle.lf_io.specs.Steps.{Pushes, Puts};

/// What a push answers: how many bytes it took, or a fault.
#[derive(Clone, Copy, Debug, PartialEq, Eq)]
pub enum Pushed {
    Took(usize),
    Failed,
}

/// Whether all of a text was put.
#[derive(Clone, Copy, Debug, PartialEq, Eq)]
pub enum Put {
    /// The whole text was put.
    Done,
    /// A push failed, and a prefix of the text was put.
    Failed,
}

/// What bytes go to.
pub trait Sink {
    /// The bytes so far, where the sink tells them.
    ghost got: { Self → Option (List ℕ) };

    /// A count of faults. A call that fails raises it, and no other does.
    ghost faults: { Self → ℕ };

    /// A push that took `n` bytes took the first ones of the piece.
    fn push(&mut self, piece: &[u8]) -> Pushed
        requires { 0 < length piece.now }
        ensures bytes { Pushes (got self.old) (got self.new) piece.now result }
        ensures faults { HasCause (faults self.old) (faults self.new) (result ≡ Pushed.Failed) };
}

/// Puts the whole text, in as many pushes as it takes, and stops at the first fault.
pub fn put_all<K: Sink>(sink: &mut K, text: &[u8]) -> Put
    ensures bytes { Puts (K.got sink.old) (K.got sink.new) text.now result }
    ensures faults { HasCause (K.faults sink.old) (K.faults sink.new) (result ≡ Put.Failed) }
{
    let mut rest = text;
    while !rest.is_empty() {
        match sink.push(rest) {
            Pushed::Took(count) => rest = rest.split_at(count).1,
            Pushed::Failed => return Put::Failed,
        }
    }
    Put::Done
}
