//! The front itself: the items of a list of fields, and the reading of a whole text.

ghost use Rattle.std.specs.Prelude.{◌≡◌, ◌≤◌, ◌<◌, ℕ, List, length, IfOk};
ghost use Rattle.lf_limits.specs.Limits.{most_text_bytes};
ghost use Rattle.std.specs.List.{prefix_len};
ghost use Rattle.lf_spelling.specs.Cuts.{EndsText};
ghost use Rattle.lf_spelling.specs.ItemReaders.{GivesItem};
ghost use Rattle.lf_spelling.specs.Spelling.{AnswersFormat, AnswersFault};
ghost use Rattle.lf_format.specs.Shape.{Shape};
ghost use Rattle.lf_spelling.specs.declared.fault.Cause.{Cause};
ghost use Rattle.w3c_front.specs.Items.{is_blank, is_inner, has_heading, after_blanks, given_of};
ghost use Rattle.w3c_front.specs.Reading.{start};
ghost use Rattle.w3c_front.specs.W3c.{SpellsDraft, IsFaultyDraft, HasOneDraftAnswer, SpellsIis, IsFaultyIis, HasOneIisAnswer};

use crate::identifier::slot;
use crate::table::Language;
use lf_format::{Format, LineEnd, Slot};
use lf_spelling::{Cause, FormatFault, Given, ItemFault, ItemReader, Taken, read_text};
use std::alloc::Global;

/// What may stand at the first byte of a text.
const HEADING: &[u8] = b"#Fields:";

/// Where in the text an item stands: at its first byte, before the first field, or after a field.
#[derive(Clone, Copy, Debug, PartialEq, Eq)]
enum Place {
    Start,
    First,
    Later,
}

/// A list of fields, read as far as the place.
#[derive(Clone, Copy)]
struct Fields {
    language: Language,
    place: Place,
}

fn is_blank(b: u8) -> bool
    ensures { result ≡ is_blank b }
{
    b == b' ' || b == b'\t'
}

fn is_inner(b: u8) -> bool
    ensures { result ≡ is_inner b }
{
    !is_blank(b) && b != b'\n'
}

fn blank_run(text: &[u8]) -> usize
    ensures { result ≡ prefix_len is_blank text.now }
{
    text.iter().take_while(|b| is_blank(**b)).count()
}

fn identifier_run(text: &[u8]) -> usize
    ensures { result ≡ prefix_len is_inner text.now }
{
    text.iter().take_while(|b| is_inner(**b)).count()
}

fn has_heading(place: Place, text: &[u8]) -> bool
    ensures { result ≡ has_heading place text.now }
{
    place == Place::Start && text.starts_with(HEADING)
}

/// The place after spaces and tabs.
fn after_blanks(place: Place) -> Place
    ensures { result ≡ after_blanks place }
{
    match place {
        Place::Start | Place::First => Place::First,
        Place::Later => Place::Later,
    }
}

/// What a field gives: a space stands before each but the first.
fn given(place: Place, slot: Slot) -> Given
    ensures { result ≡ given_of place slot }
{
    match place {
        Place::Start | Place::First => Given::Slot(slot),
        Place::Later => Given::Spaced(slot),
    }
}

impl ItemReader for Fields {
    ghost use Rattle.w3c_front.specs.Reading.{item_is as fields_item_is, fault_is as fields_fault_is, reading as fields_reading};
    ghost use Rattle.w3c_front.specs.Laws.{laws as fields_laws};

    ghost item_is = { fields_item_is };

    ghost fault_is = { fields_fault_is };

    ghost reading = { fields_reading };

    ghost laws = { fields_laws };

    fn item(&mut self, alloc: Global, rest: &[u8]) -> Result<Taken, ItemFault> {
        let Some((first, _after)) = rest.split_first() else {
            return Err(ItemFault::Fault(Cause::EmptyFormat));
        };
        if is_blank(*first) {
            self.place = after_blanks(self.place);
            return Ok(Taken {
                given: Given::Nothing,
                len: blank_run(rest),
            });
        }
        if *first == b'\n' {
            return Err(ItemFault::Fault(Cause::LineBreak));
        }
        if has_heading(self.place, rest) {
            self.place = Place::First;
            return Ok(Taken {
                given: Given::Nothing,
                len: HEADING.len(),
            });
        }
        let len = identifier_run(rest);
        let slot = match slot(alloc, self.language, rest.split_at(len).0) {
            Ok(slot) => slot,
            Err(fault) => return Err(fault),
        };
        let given = given(self.place, slot);
        self.place = Place::Later;
        Ok(Taken { given, len })
    }
}

/// Before the first item of a text.
fn start(language: Language) -> Fields
    ensures { result ≡ start language }
{
    Fields {
        language,
        place: Place::Start,
    }
}

/// The format that a list of the draft's fields spells, or its first fault.
pub fn parse_draft(alloc: Global, text: &str) -> Result<Format, FormatFault>
    requires { length text.now ≤ most_text_bytes }
    // What is answered is so.
    ensures spelled { IfOk result (λ format. SpellsDraft text.now format) }
    ensures faulty { (place : ℕ) (cause : Cause) → result ≡ Err (FormatFault.At place cause) → IsFaultyDraft text.now place cause }
    // What is so is answered, unless memory runs out.
    ensures only_spelled { (format : Shape) → SpellsDraft text.now format → AnswersFormat format result }
    ensures only_faulty { (place : ℕ) (cause : Cause) → IsFaultyDraft text.now place cause → AnswersFault place cause result }
{
    let fields = start(Language::Draft);
    read_text(alloc, fields, LineEnd::Lf, true, text.as_bytes())
}

/// The format that a list of the fields of IIS spells, or its first fault.
pub fn parse_iis(alloc: Global, text: &str) -> Result<Format, FormatFault>
    requires { length text.now ≤ most_text_bytes }
    // What is answered is so.
    ensures spelled { IfOk result (λ format. SpellsIis text.now format) }
    ensures faulty { (place : ℕ) (cause : Cause) → result ≡ Err (FormatFault.At place cause) → IsFaultyIis text.now place cause }
    // What is so is answered, unless memory runs out.
    ensures only_spelled { (format : Shape) → SpellsIis text.now format → AnswersFormat format result }
    ensures only_faulty { (place : ℕ) (cause : Cause) → IsFaultyIis text.now place cause → AnswersFault place cause result }
{
    let fields = start(Language::Iis);
    read_text(alloc, fields, LineEnd::CrLf, true, text.as_bytes())
}

/// Each list of the draft's fields spells one format, or it has one first fault.
pub fn one_draft_answer()
    ensures { (text : List ℕ) → HasOneDraftAnswer text }
{
    lf_spelling::one_answer(&start(Language::Draft));
}

/// Each list of the fields of IIS spells one format, or it has one first fault.
pub fn one_iis_answer()
    ensures { (text : List ℕ) → HasOneIisAnswer text }
{
    lf_spelling::one_answer(&start(Language::Iis));
}
