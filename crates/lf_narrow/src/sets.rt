//! Sets of bytes as a text lists them.

ghost use Rattle.std.specs.Prelude.{◌≡◌, ℕ, ◌<◌, ◌==◌, ◌&&◌, ◌||◌, not, cond, List, ◌∷◌};
ghost use Rattle.std.specs.Option.{unwrap_or};
ghost use Rattle.lf_core.specs.Class.{is_member};
ghost use Rattle.lf_syntax.specs.Leaf.{hex_value, is_within};
ghost use Rattle.lf_narrow.specs.Terms.{item_by, stage_after, is_dash, is_listed, is_in_set};

use lf_core::Class;

/// How much of an item has been read: nothing, its backslash, `\x`, or that and a digit's value.
#[derive(Clone, Copy)]
pub(crate) enum Stage {
    Fresh,
    Slash,
    Cross,
    Digit(u8),
}

impl Stage {
    /// The value of the item that ends with the byte.
    fn item(self, byte: u8) -> Option<u16>
        ensures { result ≡ item_by self byte }
    {
        match self {
            Stage::Fresh => {
                if byte == b'\\' || byte == b'-' {
                    return None;
                }
                Some(byte as u16)
            }
            Stage::Slash => None,
            Stage::Cross => None,
            Stage::Digit(high) => Some(16 * high as u16 + hex_value(byte) as u16),
        }
    }

    fn after(self, byte: u8) -> Stage
        ensures { result ≡ stage_after self byte }
    {
        match self {
            Stage::Fresh => {
                if byte == b'\\' {
                    return Stage::Slash;
                }
                Stage::Fresh
            }
            Stage::Slash => Stage::Cross,
            Stage::Cross => Stage::Digit(hex_value(byte)),
            Stage::Digit(_) => Stage::Fresh,
        }
    }

    fn is_dash(self, byte: u8) -> bool
        ensures { result ≡ is_dash self byte }
    {
        match self {
            Stage::Fresh => byte == b'-',
            _ => false,
        }
    }
}

fn hex_value(byte: u8) -> u8
    ensures { result ≡ hex_value byte }
{
    if 48 <= byte && byte <= 57 {
        return byte - 48;
    }
    if 97 <= byte && byte <= 102 {
        return byte - 87;
    }
    if 65 <= byte && byte <= 70 {
        return byte - 55;
    }
    16
}

/// The set with the byte, if told so.
fn with_if(set: Class, byte: u8, inside: bool) -> Class
    ensures { (x : ℕ) → x < 256 → is_member result x ≡ (is_member set x || ((x == byte) && inside)) }
{
    if inside {
        return set.with(byte);
    }
    set
}

/// The set without the byte, if told so.
fn without_if(set: Class, byte: u8, inside: bool) -> Class
    ensures { (x : ℕ) → x < 256 → is_member result x ≡ (is_member set x && not ((x == byte) && inside)) }
{
    if inside {
        return set.without(byte);
    }
    set
}

/// The set with the bytes from the first to the last.
fn with_range(set: Class, first: u16, last: u16) -> Class
    ensures { (x : ℕ) → x < 256 → is_member result x ≡ (is_member set x || is_within first last x) }
{
    let mut all = set;
    for byte in 0..=255u8 {
        let inside = (first <= byte as u16) & (byte as u16 <= last);
        all = with_if(all, byte, inside);
    }
    all
}

/// The bytes that aren't in the set.
pub(crate) fn outside(set: Class) -> Class
    ensures { (x : ℕ) → x < 256 → is_member result x ≡ not (is_member set x) }
{
    let mut all = Class::of(0, 255);
    for byte in 0..=255u8 {
        let inside = set.has(byte);
        all = without_if(all, byte, inside);
    }
    all
}

/// The set with an item, or with the range that it ends.
fn with_item(set: Class, first: Option<u16>, item: u16) -> Class
    ensures { (x : ℕ) → x < 256 → is_member result x ≡ (is_member set x || is_within (unwrap_or first item) item x) }
{
    match first {
        Some(first) => with_range(set, first, item),
        None => {
            if item < 256 {
                return set.with(item as u8);
            }
            set
        }
    }
}

/// The bytes that have been listed, how much of an item has been read, the first item of a range whose
/// dash has been read, and the last item.
#[derive(Clone, Copy)]
struct Reading {
    set: Class,
    stage: Stage,
    first: Option<u16>,
    last: u16,
}

impl Reading {
    /// What has been read after one more byte.
    fn after(self, byte: u8) -> Reading
        ensures { (x : ℕ) (rest : List ℕ) → x < 256
            → (is_member result.set x || is_listed x result.stage result.first result.last rest)
            ≡ (is_member self.set x || is_listed x self.stage self.first self.last (byte ∷ rest)) }
    {
        match self.stage.item(byte) {
            Some(item) => Reading {
                set: with_item(self.set, self.first, item),
                stage: Stage::Fresh,
                first: None,
                last: item,
            },
            None => Reading {
                set: self.set,
                stage: self.stage.after(byte),
                first: if_dash(self.stage.is_dash(byte), self.last, self.first),
                last: self.last,
            },
        }
    }
}

fn if_dash(dash: bool, last: u16, first: Option<u16>) -> Option<u16>
    ensures { result ≡ cond dash (Some last) first }
{
    if dash { Some(last) } else { first }
}

/// The bytes that the text lists.
pub(crate) fn set_of(text: &[u8]) -> Class
    ensures { (x : ℕ) → x < 256 → is_member result x ≡ is_in_set text.now x }
{
    let mut reading = Reading {
        set: Class::of(1, 0),
        stage: Stage::Fresh,
        first: None,
        last: 0,
    };
    for byte in text {
        reading = reading.after(*byte);
    }
    reading.set
}
