//! A command line, read.

use lf_core::Str;

/// What is to be done.
#[derive(Clone, Copy, Debug, PartialEq, Eq)]
pub enum Verb {
    /// Says whether the format is readable.
    Check,
    /// Reads lines, and writes their records as JSON.
    Read,
    /// Reads records in JSON, and writes their lines.
    Write,
    /// Reads lines of the source, and writes lines of the target.
    Translate,
    /// Shows the slots of the format.
    Show,
    /// Generates records from a seed.
    Gen,
}

/// The notation that a format is spelled in.
#[derive(Clone, Copy, Debug, PartialEq, Eq)]
pub enum Front {
    /// The text of Apache's `LogFormat`.
    Apache,
    /// The text of nginx's `log_format` with `escape=default`.
    Nginx,
    /// The same with `escape=json`.
    NginxJson,
    /// The same with `escape=none`.
    NginxNone,
    /// The whole directive, `log_format NAME .. ;`.
    NginxDirective,
    /// The text of HAProxy's `log-format`.
    Haproxy,
    /// The text of Envoy's access log format.
    Envoy,
    /// The fields of a log by the W3C's draft.
    W3c,
    /// The fields of a log of IIS.
    Iis,
}

/// A format as it was spelled, and the narrowing of it.
#[derive(Debug, Drop)]
pub struct Side {
    pub front: Front,
    pub format: Str,
    pub narrow: Option<Str>,
}

/// A command line, read. Only `Translate` has a target and a map, and only `Gen` a seed and a count.
#[derive(Debug, Drop)]
pub struct Command {
    pub verb: Verb,
    pub source: Side,
    pub target: Option<Side>,
    pub map: Option<Str>,
    /// 0 where the verb has none.
    pub seed: u64,
    /// How many records are generated; 0 where the verb has none.
    pub count: u32,
    /// How many jobs share the lines; 1 where the words say none.
    pub jobs: u32,
    /// Whether absence and a lone dash are two values of the source, not one.
    pub two: bool,
}
