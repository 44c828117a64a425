//! Words that are numbers.

ghost use Rattle.std.specs.Prelude.{MatchOption};
ghost use Rattle.lf_words.specs.Command.{IsNumber};
ghost use Rattle.lf_words.specs.Reading.{IsNoNumber};

use itoa::Buffer;

/// The number that the word is, if it is at most `most`.
pub(crate) fn number_of(word: &str, most: u64) -> Option<u64>
    ensures { MatchOption result (IsNoNumber most word.now) (IsNumber most word.now) }
{
    let Ok(number) = word.parse::<u64>() else {
        return None;
    };
    let mut buffer = Buffer::new();
    if buffer.format(number) != word {
        return None;
    }
    if number > most {
        return None;
    }
    Some(number)
}
