//! Line ends, notes and copies of formats.

use crate::telling::{format_of, pieces_text};
use lf_format::LineEnd;
use lf_spelling::{Cause, FormatFault};
use lf_words::Front;
use std::test::Fail;

#[test]
fn one_format_of_each_front(rt: HostRuntime) -> Result<(), Fail> {
    let rows = [
        (Front::Apache, "%h %t", 2, LineEnd::Lf, false),
        (Front::Nginx, "$status $msec", 2, LineEnd::Lf, false),
        (
            Front::NginxJson,
            "{\"a\":\"$http_a\"}",
            1,
            LineEnd::Lf,
            false,
        ),
        (Front::NginxNone, "$http_a", 1, LineEnd::Lf, false),
        (
            Front::NginxDirective,
            "log_format m '$pipe';",
            1,
            LineEnd::Lf,
            false,
        ),
        (Front::Haproxy, "%ci:%cp %{+Q}r", 3, LineEnd::Lf, false),
        (Front::Envoy, "%START_TIME%\n", 1, LineEnd::Lf, false),
        (Front::W3c, "date time", 2, LineEnd::Lf, true),
        (Front::Iis, "date time c-ip", 3, LineEnd::CrLf, true),
    ];
    for (front, text, slots, end, notes) in rows {
        let format = format_of(rt.alloc(), front, text)?;
        assert_eq!(rt; format.slots(), slots);
        assert!(rt; format.end() == end && format.notes() == notes, "at {text}");
    }
    Ok(())
}

#[test]
fn formats_are_copied(rt: HostRuntime) -> Result<(), Fail> {
    let format = format_of(rt.alloc(), Front::Apache, "%h \"%r\" %>s %X")?;
    let copy = format.copy()?;
    let text = pieces_text(rt.alloc(), &format)?;
    let again = pieces_text(rt.alloc(), &copy)?;
    assert_eq!(rt; text.as_str(), again.as_str());
    assert!(rt; copy.end() == LineEnd::Lf && !copy.notes());
    assert_eq!(rt; copy.slots(), 4);
    if copy.slots() == 4 {
        assert_eq!(rt; copy.slot(3).name.as_str(), "%>s");
        assert_eq!(rt; copy.slot(1).name.as_str(), "%h");
    }
    Ok(())
}

fn shared<T: Send + Sync>(_value: &T) {}

#[test]
fn faults_are_shared_by_threads(_rt: HostRuntime) {
    shared(&FormatFault::At(0, Cause::BadName));
    shared(&nginx_front::Escape::Json);
}
