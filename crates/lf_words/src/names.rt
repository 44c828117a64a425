//! The words of verbs, fronts and options.

ghost use Rattle.std.specs.Prelude.{◌≡◌, MatchOption, bytes_eq, codes};
ghost use Rattle.lf_words.specs.Command.{verb_text, front_text, dash_text, has_option};
ghost use Rattle.lf_words.specs.Reading.{NamesNoVerb, NamesNoFront, NamesNoDash};

use crate::command::{Front, Verb};

pub(crate) fn verb_of(word: &str) -> Option<Verb>
    ensures { MatchOption result (NamesNoVerb word.now) (λ verb. word.now ≡ verb_text verb) }
{
    match word {
        "check" => Some(Verb::Check),
        "read" => Some(Verb::Read),
        "write" => Some(Verb::Write),
        "translate" => Some(Verb::Translate),
        "show" => Some(Verb::Show),
        "gen" => Some(Verb::Gen),
        _ => None,
    }
}

pub(crate) fn front_of(word: &str) -> Option<Front>
    ensures { MatchOption result (NamesNoFront word.now) (λ front. word.now ≡ front_text front) }
{
    match word {
        "apache" => Some(Front::Apache),
        "nginx" => Some(Front::Nginx),
        "nginx-json" => Some(Front::NginxJson),
        "nginx-none" => Some(Front::NginxNone),
        "nginx-directive" => Some(Front::NginxDirective),
        "haproxy" => Some(Front::Haproxy),
        "envoy" => Some(Front::Envoy),
        "w3c" => Some(Front::W3c),
        "iis" => Some(Front::Iis),
        _ => None,
    }
}

/// Whether the word says that absence and a lone dash are two values.
pub(crate) fn dash_of(word: &str) -> Option<bool>
    ensures { MatchOption result (NamesNoDash word.now) (λ two. word.now ≡ dash_text two) }
{
    match word {
        "one" => Some(false),
        "two" => Some(true),
        _ => None,
    }
}

/// Whether the verb has an option of this name.
pub(crate) fn has_name(verb: Verb, name: &str) -> bool
    ensures { result ≡ has_option verb name.now }
{
    match verb {
        Verb::Check => (name == "--narrow") | (name == "--dash"),
        Verb::Read => (name == "--narrow") | (name == "--dash") | (name == "--jobs"),
        Verb::Write => (name == "--narrow") | (name == "--dash"),
        Verb::Translate => {
            (name == "--narrow") | (name == "--narrow-to") | (name == "--dash") | (name == "--jobs")
        }
        Verb::Show => (name == "--narrow") | (name == "--dash"),
        Verb::Gen => (name == "--narrow") | (name == "--dash") | (name == "--jobs"),
    }
}
