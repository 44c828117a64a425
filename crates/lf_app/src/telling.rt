//! One text, written to a sink, and the status that it ends with.

ghost use Rattle.std.specs.Prelude.{◌≡◌, ◌≢◌, ◌⊎◌};
ghost use Rattle.lf_io.specs.Faults.{HasCause};
ghost use Rattle.lf_io.specs.Moves.{Gets};
ghost use Rattle.lf_app.specs.Statuses as statuses;
ghost use Rattle.lf_app.specs.Promise.{Says, TellsText};

use crate::status::Status;
use lf_core::{Bytes, OutOfMemory};
use lf_io::{Put, Sink, put_all};

/// Writes a text, and ends with the good status, or with that of a sink's fault.
pub fn tell<K: Sink>(sink: &mut K, text: &[u8], good: Status) -> Status
    requires { good.0 ≢ statuses.sink_fault }
    ensures says { Says good.0 result.0 text.now (Gets (K.got sink.old) (K.got sink.new)) }
    ensures faults { HasCause (K.faults sink.old) (K.faults sink.new) (result.0 ≡ statuses.sink_fault) }
    ensures known { result.0 ≡ good.0 ⊎ result.0 ≡ statuses.sink_fault }
{
    match put_all(sink, text) {
        Put::Done => good,
        Put::Failed => Status::SINK_FAULT,
    }
}

/// Writes a text that there was memory for.
pub fn tell_text<K: Sink>(text: Result<Bytes, OutOfMemory>, sink: &mut K, good: Status) -> Status
    requires { good.0 ≢ statuses.sink_fault }
    ensures says { TellsText good.0 result.0 text (Gets (K.got sink.old) (K.got sink.new)) }
    ensures faults { HasCause (K.faults sink.old) (K.faults sink.new) (result.0 ≡ statuses.sink_fault) }
{
    match text {
        Ok(text) => tell(sink, text.as_slice(), good),
        Err(OutOfMemory) => Status::NO_MEMORY,
    }
}
