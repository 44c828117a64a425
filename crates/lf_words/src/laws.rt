//! Laws over the definitions alone, each the contract of a function that does nothing.

ghost use Rattle.std.specs.Prelude.{◌≡◌, ℕ, List};
ghost use Rattle.std.specs.Option.{ForSome};
ghost use Rattle.lf_words.specs.Command.{IsCommand, IsOneCommandOrBad, IsWord, HasTarget};
ghost use Rattle.lf_words.specs.declared.command.Command.{Command as OneCommand};
ghost use Rattle.lf_words.specs.declared.command.Verb.TheVariants as verbs;

/// Each list of words is one command, or bad.
pub fn words_are_one_command_or_bad()
    ensures { (words : List (List ℕ)) → IsOneCommandOrBad words }
{}

/// The format of a command is one of its words, so a text within the limit.
pub fn format_is_a_word()
    ensures { (words : List (List ℕ)) (c : OneCommand) → IsCommand words c → IsWord c.source.format }
{}

/// The narrowing of a command's source, if one is given, is one of its words.
pub fn narrowing_is_a_word()
    ensures { (words : List (List ℕ)) (c : OneCommand) → IsCommand words c → ForSome {T = List ℕ} c.source.narrow IsWord }
{}

/// A translation has a target and a map, and their texts are words of the command.
pub fn translation_has_a_target()
    ensures { (words : List (List ℕ)) (c : OneCommand) → IsCommand words c → c.verb ≡ verbs.Translate → HasTarget c }
{}
