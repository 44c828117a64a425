//! The text of a format, read by the front that is named.

ghost use Rattle.std.specs.Prelude.{◌≡◌, ◌≤◌, ℕ, List, length, IfOk};
ghost use Rattle.lf_limits.specs.Limits.{most_text_bytes};
ghost use Rattle.lf_spelling.specs.Spelling.{AnswersFormat, AnswersFault};
ghost use Rattle.lf_format.specs.Shape.{Shape};
ghost use Rattle.lf_spelling.specs.declared.fault.Cause.{Cause};
ghost use Rattle.lf_words.specs.declared.command.Front.{Front as OneFront};
ghost use Rattle.std.specs.Str.{IsUtf8};
ghost use Rattle.lf_fronts.specs.Fronts.{Spells, IsFaulty, HasOneAnswer};
ghost use Rattle.lf_fronts.specs.Keeps.{IsFormat};

use lf_format::Format;
use lf_spelling::FormatFault;
use lf_words::Front;
use nginx_front::Escape;
use std::alloc::Global;

/// The format that a text spells in a front's language, or its first fault.
pub fn parse(alloc: Global, front: Front, text: &str) -> Result<Format, FormatFault>
    requires { length text.now ≤ most_text_bytes }
    // What is answered is so.
    ensures spelled { IfOk result (λ format. Spells front text.now format) }
    ensures faulty { (place : ℕ) (cause : Cause) → result ≡ Err (FormatFault.At place cause) → IsFaulty front text.now place cause }
    // What is so is answered, unless memory runs out.
    ensures only_spelled { (format : Shape) → Spells front text.now format → AnswersFormat format result }
    ensures only_faulty { (place : ℕ) (cause : Cause) → IsFaulty front text.now place cause → AnswersFault place cause result }
{
    match front {
        Front::Apache => apache_front::parse(alloc, text),
        Front::Nginx => nginx_front::parse(alloc, text, Escape::Default),
        Front::NginxJson => nginx_front::parse(alloc, text, Escape::Json),
        Front::NginxNone => nginx_front::parse(alloc, text, Escape::Off),
        Front::NginxDirective => nginx_front::parse_directive(alloc, text),
        Front::Haproxy => haproxy_front::parse(alloc, text),
        Front::Envoy => envoy_front::parse(alloc, text),
        Front::W3c => w3c_front::parse_draft(alloc, text),
        Front::Iis => w3c_front::parse_iis(alloc, text),
    }
}

/// In each front each text spells one format, or it has one first fault.
pub fn one_answer()
    ensures { (front : OneFront) (text : List ℕ) → HasOneAnswer front text }
{
    apache_front::one_answer();
    nginx_front::one_answer(Escape::Default);
    nginx_front::one_answer(Escape::Json);
    nginx_front::one_answer(Escape::Off);
    nginx_front::one_directive_answer();
    haproxy_front::one_answer();
    envoy_front::one_answer();
    w3c_front::one_draft_answer();
    w3c_front::one_iis_answer();
}

/// What a text within the limit spells keeps what a format keeps, and its literals are made of bytes.
pub fn spelled_keeps()
    ensures { (front : OneFront) (text : List ℕ) (format : Shape) → IsUtf8 text → length text ≤ most_text_bytes
        → Spells front text format → IsFormat format }
{}
