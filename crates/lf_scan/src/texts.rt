//! The reading of texts and of queries.
ghost use Rattle.std.specs.Prelude.{◌≡◌, ◌≤◌, ◌↔◌, IsTrue, IfOk, IfSome};
ghost use Rattle.lf_core.specs.Adds.{BeginsWith};
ghost use Rattle.lf_format.specs.declared.kind.Kind.TheVariants as Kind;
ghost use Rattle.lf_scan.specs.Reads.{ReadsKind};
ghost use Rattle.lf_scan.specs.Texts.{query_of, set_of};

use crate::literals::after_byte;
use crate::text_step::{QueryStep, TextStep};
use lf_core::{Bytes, OutOfMemory};
use lf_domain::{QueryText, TextSet};
use lf_escape::Coding;
use lf_letters::Letters;
use std::alloc::Global;

impl TextStep {
    /// The step for the set's texts.
    pub(crate) fn new(set: TextSet, code: Coding, stop: Option<u8>) -> TextStep
        ensures set { set_of result ≡ set }
        ensures code { result.letters.code ≡ code }
    {
        TextStep {
            letters: Letters::new(set.class, code, stop),
            min: set.min,
            max: set.max,
        }
    }

    /// Whether the set has texts of so many letters.
    fn fits(&self, len: usize) -> bool
        ensures { IsTrue result ↔ ((self.now.min ≤ len) × IfSome self.now.max (λ top. len ≤ top)) }
    {
        let in_bounds = match self.max {
            Some(most) => len <= most as usize,
            None => true,
        };
        (self.min as usize) <= len && in_bounds
    }

    /// Reads what is written of a text, and adds its JSON; tells what is left, and none where the text doesn't fit.
    pub(crate) fn read<'a>(
        &self,
        alloc: Global,
        text: &'a [u8],
        into: &mut Bytes,
    ) -> Result<Option<&'a [u8]>, OutOfMemory>
        ensures read { IfOk result (λ found. IfSome found (λ left. ReadsKind (Kind.Text (set_of self.now)) self.now.letters.code text.now left.now into.old into.new)) }
        ensures kept { BeginsWith into.new into.old }
    {
        let (left, len) = self.letters.read(alloc, text, into)?;
        if !self.fits(len) {
            return Ok(None);
        }
        Ok(Some(left))
    }
}

impl QueryStep {
    /// The step for the domain's queries.
    pub(crate) fn new(domain: QueryText, code: Coding, stop: Option<u8>) -> QueryStep
        ensures domain { query_of result ≡ domain }
        ensures code { result.letters.code ≡ code }
    {
        QueryStep {
            letters: Letters::new(domain.class, code, stop),
        }
    }

    /// Reads what is written of a query, and adds its JSON; tells what is left.
    pub(crate) fn read<'a>(
        &self,
        alloc: Global,
        text: &'a [u8],
        into: &mut Bytes,
    ) -> Result<Option<&'a [u8]>, OutOfMemory>
        ensures read { IfOk result (λ found. IfSome found (λ left. ReadsKind (Kind.Query (query_of self.now)) self.now.letters.code text.now left.now into.old into.new)) }
        ensures kept { BeginsWith into.new into.old }
    {
        let Some(more) = after_byte(b'?', text) else {
            into.extend(b"\"\"")?;
            return Ok(Some(text));
        };
        let (left, _len) = self.letters.read_query(alloc, more, into)?;
        Ok(Some(left))
    }
}
