//! A translation: the reader of the source, the map, and the target.

ghost use Rattle.std.specs.Prelude.{◌≡◌, MatchOption, IfOk};
ghost use Rattle.lf_compile.specs.Accepted.{IsAccepted};
ghost use Rattle.lf_format.specs.Lines.{PrintsNone};
ghost use Rattle.lf_map.specs.Filling.{IsMapOf};
ghost use Rattle.lf_translate.specs.Translations.{IsTurnedTo};

use crate::turning::{Turned, translate_record};
use lf_compile::Reader;
use lf_core::{OutOfMemory, Str};
use lf_format::Format;
use lf_map::FieldMap;
use std::alloc::Global;
use std::marker::Model;

/// Turns the lines of one format into lines of another.
#[derive(Drop)]
pub struct Translation {
    source: Reader,
    target: Format,
    /// The text that the map was read from.
    text: Str,
    map: FieldMap,
}

impl Model for Translation {
    ghost use Rattle.lf_map.specs.Filling.{IsMapOf};
    ghost use Rattle.lf_translate.specs.Translations.{Plan};

    ghost Value = { Plan };

    ghost view = { λ t. record { source = t.source; target = t.target; map = t.text } };

    ghost invariant = { λ t. IsMapOf t.text t.source t.target t.map };
}

impl Translation {
    /// The translation by this map, which is the text's.
    pub fn new(source: Reader, target: Format, text: Str, map: FieldMap) -> Translation
        requires { IsMapOf text source target map }
        ensures { result ≡ record { source = source; target = target; map = text } }
    {
        Translation {
            source,
            target,
            text,
            map,
        }
    }

    /// The format that lines are read by.
    pub fn source(&self) -> &Format
        ensures { result.now ≡ self.now.source }
    {
        self.source.format()
    }

    /// The format that lines are written by.
    pub fn target(&self) -> &Format
        ensures { result.now ≡ self.now.target }
    {
        &self.target
    }

    /// What the line is turned to. None where no record of the source prints it.
    pub fn turn(&self, alloc: Global, line: &[u8]) -> Result<Option<Turned>, OutOfMemory>
        ensures { IfOk result (λ turned. MatchOption turned
            (PrintsNone self.now.source.pieces line.now)
            (IsTurnedTo self.now line.now)) }
    {
        let Some(record) = self.source.read(alloc, line)? else {
            return Ok(None);
        };
        Ok(Some(translate_record(alloc, &self.map, &record)?))
    }
}
