//! The flags, which hold between items.

ghost use Rattle.std.specs.Prelude.{◌≡◌, ◌&&◌, Option, Some, None, cond};
ghost use Rattle.haproxy_front.specs.Flags.{is_sign, is_flag, are_flags, with_flag, changed};

/// The flags that hold: values in quotes (Q), in escapes (E), and in hexadecimal digits (X).
#[derive(Clone, Copy, Debug, PartialEq, Eq)]
pub struct Flags {
    pub quotes: bool,
    pub escapes: bool,
    pub hexadecimal: bool,
}

fn is_sign_byte(b: u8) -> bool
    ensures { result ≡ is_sign b }
{
    b == b'+' || b == b'-'
}

fn is_flag_byte(b: u8) -> bool
    ensures { result ≡ is_flag b }
{
    b == b'Q' || b == b'E' || b == b'X'
}

/// Whether the two bytes are a change.
fn is_change(sign: u8, letter: u8) -> bool
    ensures { result ≡ (is_sign sign && is_flag letter) }
{
    is_sign_byte(sign) && is_flag_byte(letter)
}

impl Flags {
    /// No flag holds, as at the start of a text.
    pub const NONE: Flags = Flags {
        quotes: false,
        escapes: false,
        hexadecimal: false,
    };

    /// The flags with the one of the letter held or not.
    fn with(self, held: bool, letter: u8) -> Flags
        ensures { result ≡ with_flag self held letter }
    {
        match letter {
            b'Q' => Flags {
                quotes: held,
                ..self
            },
            b'E' => Flags {
                escapes: held,
                ..self
            },
            _ => Flags {
                hexadecimal: held,
                ..self
            },
        }
    }

    /// The flags after changes, such as `+Q,-X`, from left to right, or none where these are no changes.
    pub fn change(self, changes: &[u8]) -> Option<Flags>
        ensures { result ≡ cond (are_flags changes.now) (Some (changed self changes.now)) None }
    {
        let mut flags = self;
        let mut rest = changes;
        while 2 <= rest.len() {
            if !is_change(rest[0], rest[1]) {
                return None;
            }
            flags = flags.with(rest[0] == b'+', rest[1]);
            if rest.len() == 2 {
                return Some(flags);
            }
            if rest[2] != b',' {
                return None;
            }
            rest = rest.split_at(3).1;
        }
        None
    }
}
