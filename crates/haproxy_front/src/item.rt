//! What begins with a percent sign, taken apart from the left.

ghost use Rattle.std.specs.Prelude.{◌≡◌, ◌∷◌, ◌++◌, ◌+◌, ◌<◌, ◌^◌, ℕ, List, length, nat_le};
ghost use Rattle.std.specs.List.{prefix_len};
ghost use Rattle.lf_spelling.specs.ItemReaders.{GivesItem};
ghost use Rattle.haproxy_front.specs.Names.{is_alphanumeric};
ghost use Rattle.lf_spelling.specs.Runs.{run};
ghost use Rattle.haproxy_front.specs.Items.{is_space};
ghost use Rattle.haproxy_front.specs.Reading.{on_named, on_item, on_percent};

use crate::flags::Flags;
use crate::slots::given;
use crate::table::find_row;
use lf_spelling::{Cause, Given, ItemFault, Taken, cut_part};
use std::alloc::Global;

fn is_name_byte(b: u8) -> bool
    ensures { result ≡ is_alphanumeric b }
{
    (48 <= b && b <= 57) || (65 <= b && b <= 90) || (97 <= b && b <= 122)
}

/// How many spaces stand at the start.
pub fn space_run(text: &[u8]) -> usize
    ensures { result ≡ prefix_len is_space text.now }
{
    text.iter().take_while(|b| **b == b' ').count()
}

/// How many letters and digits stand at the start.
fn name_run(text: &[u8]) -> usize
    ensures { result ≡ prefix_len is_alphanumeric text.now }
{
    text.iter().take_while(|b| is_name_byte(**b)).count()
}

/// The letters and digits at the start.
fn name_at(text: &[u8]) -> &str
    ensures { result.now ≡ run is_alphanumeric text.now }
{
    let Ok(name) = str::from_utf8(text.split_at(name_run(text)).0) else {
        unreachable!()
    };
    name
}

impl Flags {
    /// The name at the start of the text, under its own flags. The item has `before` bytes before it.
    fn named(
        &mut self,
        alloc: Global,
        own: Flags,
        before: usize,
        text: &[u8],
    ) -> Result<Taken, ItemFault>
        requires { before + length text.now < 2 ^ 64 }
        ensures { (front : List ℕ) → before ≡ length front → GivesItem (on_named self.old own front text.now) self.new (front ++ text.now) result }
    {
        let name = name_at(text);
        let len = before + name.len();
        if name.is_empty() {
            return Err(ItemFault::Fault(Cause::BadName));
        }
        if name == "o" {
            *self = own;
            return Ok(Taken {
                given: Given::Nothing,
                len,
            });
        }
        let Some(row) = find_row(name) else {
            return Err(ItemFault::Fault(Cause::UnknownName));
        };
        let given = given(alloc, name, row, own)?;
        Ok(Taken { given, len })
    }

    /// An item, by what follows its percent sign.
    fn item_after(&mut self, alloc: Global, text: &[u8]) -> Result<Taken, ItemFault>
        ensures { GivesItem (on_item self.old text.now) self.new (37 ∷ text.now) result }
    {
        let Some(cut) = cut_part(text, b'{', b'}') else {
            return Err(ItemFault::Fault(Cause::Unclosed));
        };
        let held = *self;
        let Some(changes) = cut.part else {
            return self.named(alloc, held, 1, cut.rest);
        };
        let Some(own) = held.change(changes) else {
            return Err(ItemFault::Fault(Cause::BadFlags));
        };
        self.named(alloc, own, 3 + changes.len(), cut.rest)
    }

    /// What follows a percent sign.
    pub fn percent(&mut self, alloc: Global, after: &[u8]) -> Result<Taken, ItemFault>
        ensures { GivesItem (on_percent self.old after.now) self.new (37 ∷ after.now) result }
    {
        if let Some((second, _rest)) = after.split_first()
            && *second == b'%'
        {
            return Ok(Taken {
                given: Given::Byte(b'%'),
                len: 2,
            });
        }
        self.item_after(alloc, after)
    }
}
