//! The last moment that was read, since most lines of a log share their second with the line before.
ghost use Rattle.std.specs.Prelude.{◌≡◌, ◌++◌, ◌∷◌, [], List, ℕ, IfOk, IfSome, OnOk};
ghost use Rattle.lf_core.specs.Adds.{BeginsWith};
ghost use Rattle.lf_layout.specs.Layouts.{IsShown, layout_text};
ghost use Rattle.lf_stamp.specs.Fields.{KeepsStamp, moment_of};
ghost use Rattle.lf_stamp.specs.Moments.{ReadsMoment, moment_json};

use crate::stamp::Stamp;
use lf_core::{Bytes, OutOfMemory};
use lf_layout::{DateForm, Layout, Zone};
use std::alloc::Global;
use std::marker::Model;

/// A layout, and the last moment that was read in it, with its text and its JSON.
#[derive(Debug, Drop)]
pub struct Recent {
    layout: Layout,
    text: Bytes,
    json: Bytes,
    stamp: Option<Stamp>,
}

impl Model for Recent {
    ghost use Rattle.std.specs.Prelude.{List, ℕ};
    ghost use Rattle.std.specs.Option.{ForSome};
    ghost use Rattle.lf_stamp.specs.Moments.{IsKept};

    ghost Value = { List ℕ };

    ghost view = { λ r. r.json };

    ghost invariant = { λ r. ForSome r.stamp (λ s. IsKept r.layout s r.text r.json) };
}

/// What follows the text.
fn after_text<'a>(wanted: &[u8], text: &'a [u8]) -> Option<&'a [u8]>
    ensures { IfSome result (λ left. text.now ≡ wanted.now ++ left.now) }
{
    if !text.starts_with(wanted) {
        return None;
    }
    Some(text.split_at(wanted.len()).1)
}

impl Recent {
    /// Nothing was read yet.
    pub fn new(alloc: Global) -> Recent {
        Recent {
            layout: Layout {
                bracketed: false,
                date: DateForm::Iso,
                between: b'T',
                millis: false,
                zone: Zone::Zulu,
            },
            text: Bytes::new(alloc),
            json: Bytes::new(alloc),
            stamp: None,
        }
    }

    /// The JSON that is kept.
    fn json(&self) -> &[u8]
        ensures { result.now ≡ self.now }
    {
        self.json.as_slice()
    }

    /// What follows the moment, where it is the one that is kept.
    fn after_kept<'a>(&self, layout: Layout, text: &'a [u8]) -> Option<&'a [u8]>
        ensures { IfSome result (λ left. (old new : List ℕ) → new ≡ old ++ self.now → ReadsMoment layout text.now left.now old new) }
    {
        let Some(_stamp) = self.stamp else {
            return None;
        };
        if self.layout != layout {
            return None;
        }
        let left = after_text(self.text.as_slice(), text)?;
        Some(left)
    }

    /// Keeps the moment, whose text this is.
    fn keep(&mut self, layout: Layout, stamp: Stamp, text: &[u8]) -> Result<(), OutOfMemory>
        requires fields { KeepsStamp stamp }
        requires shown { IsShown layout (moment_of stamp) }
        requires text { text.now ≡ layout_text layout (moment_of stamp) }
        ensures { OnOk result (self.new ≡ moment_json (moment_of stamp)) }
    {
        self.stamp = None;
        self.text.clear();
        self.text.extend(text)?;
        self.json.clear();
        stamp.write_json(&mut self.json)?;
        self.layout = layout;
        self.stamp = Some(stamp);
        Ok(())
    }

    /// Reads a moment, and keeps it.
    fn read_anew<'a>(
        &mut self,
        layout: Layout,
        text: &'a [u8],
        into: &mut Bytes,
    ) -> Result<Option<&'a [u8]>, OutOfMemory>
        ensures read { IfOk result (λ found. IfSome found (λ left. ReadsMoment layout text.now left.now into.old into.new)) }
        ensures kept { BeginsWith into.new into.old }
    {
        let Some((stamp, left)) = Stamp::read(layout, text) else {
            return Ok(None);
        };
        let front = text.split_at(text.len() - left.len()).0;
        self.keep(layout, stamp, front)?;
        into.extend(self.json())?;
        Ok(Some(left))
    }

    /// Reads the moment of the layout that the text begins with, and adds its JSON; tells what is left, and none where
    /// the text doesn't begin with one.
    pub fn read<'a>(
        &mut self,
        layout: Layout,
        text: &'a [u8],
        into: &mut Bytes,
    ) -> Result<Option<&'a [u8]>, OutOfMemory>
        ensures read { IfOk result (λ found. IfSome found (λ left. ReadsMoment layout text.now left.now into.old into.new)) }
        ensures kept { BeginsWith into.new into.old }
    {
        let Some(left) = self.after_kept(layout, text) else {
            return self.read_anew(layout, text, into);
        };
        into.extend(self.json())?;
        Ok(Some(left))
    }
}
