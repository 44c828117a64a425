//! Laws over the definitions, each the contract of a function that does nothing.

ghost use Rattle.std.specs.Prelude.{ℕ, List};
ghost use Rattle.lf_app.specs.declared.commands.Command.{Command as OneCommand};
ghost use Rattle.lf_app.specs.Commands.{IsCommand, HasOneCommand};
ghost use Rattle.lf_app.specs.Outcome.{HasOneOutcome};

/// Any words are one command and no other.
pub fn words_are_one_command()
    ensures { (words : List (List ℕ)) → HasOneCommand words }
{
    lf_words::laws::words_are_one_command_or_bad();
    lf_words::laws::format_is_a_word();
    lf_words::laws::translation_has_a_target();
    lf_fronts::one_answer();
    lf_fronts::spelled_keeps();
    lf_narrow::one_answer();
    lf_format::two_keeps();
    lf_narrow::narrowed_keeps();
    lf_compile::laws::one_answer();
    lf_compile::laws::some_answer();
    lf_map::one_answer();
}

/// A command that some words are has one outcome on an input and no other.
pub fn command_has_one_outcome()
    ensures { (words : List (List ℕ)) (command : OneCommand) → IsCommand words command → (input : List ℕ) → HasOneOutcome command input }
{
    lf_words::laws::format_is_a_word();
    lf_fronts::spelled_keeps();
    lf_format::two_keeps();
    lf_narrow::narrowed_keeps();
    lf_compile::laws::lines_are_decided();
    lf_json::laws::lines_have_one_reading();
    lf_map::some_mapped();
    lf_gen::laws::one_record();
    lf_gen::laws::some_record();
}
