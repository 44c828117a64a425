//! Gates, which jobs pass before their first lines.

/// What a job passes before its first line.
pub trait Gate {
    /// Comes back when the job of this number may go on.
    fn pass(&self, job: u32);
}

/// A gate that does nothing.
#[derive(Clone, Copy, Debug)]
pub struct IdleGate;

impl Gate for IdleGate {
    fn pass(&self, _job: u32) {}
}
