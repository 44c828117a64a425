//! Kinds: the domains that a slot may have.

ghost use Rattle.std.specs.Prelude.{◌≡◌, ◌≤◌, ◌≤ℤ◌, ℕ, pos, List, IfOk};
ghost use Rattle.lf_limits.specs.Limits.{most_length};
ghost use Rattle.lf_core.specs.declared.values.Value.{Value};
ghost use Rattle.lf_format.specs.Kinds.{value_kind};
ghost use Rattle.lf_format.specs.CommonKinds.{bounded_texts as bounded_texts_of, dashed as dashed_of, fixed3 as fixed3_of, numbers as numbers_of, padded as padded_of, texts as texts_of};

use lf_core::{Bytes, Class, Domain, OutOfMemory, Value};
use lf_domain::{DashZero, Fixed3, NumRange, Padded, QueryText, Radix, TextSet, Words};
use lf_time::{ClfTime, HaTime, IsoMillisZ, IsoOffset, W3cClock, W3cDate};
use std::alloc::Global;

/// The domain of a slot's values.
#[derive(Debug, Drop)]
pub enum Kind {
    /// Numbers in decimal.
    Num(NumRange),
    /// Numbers in decimal, with zero as `-`.
    DashZero(DashZero),
    /// Numbers of thousandths, with a point and three digits.
    Fixed3(Fixed3),
    /// Numbers with leading zeros up to a width.
    Padded(Padded),
    /// The words of a list.
    Words(Words),
    /// Texts of a class whose lengths are in a range.
    Text(TextSet),
    /// Nothing, or `?` and letters of a class.
    Query(QueryText),
    /// Moments like `10/Oct/2000:13:55:36 -0700`.
    Clf(ClfTime),
    /// Moments like `2000-10-10T13:55:36-07:00`.
    Iso(IsoOffset),
    /// Moments like `2016-04-15T20:17:00.310Z`.
    IsoMillis(IsoMillisZ),
    /// Moments like `06/Feb/2009:12:14:14.655`.
    Ha(HaTime),
    /// Days like `2000-10-10`.
    Date(W3cDate),
    /// Times of the day like `13:55:36`.
    Clock(W3cClock),
}

/// What sort of values a domain has, also where it holds none.
#[derive(Clone, Copy, Debug, PartialEq, Eq)]
pub enum ValueKind {
    Number,
    Text,
    Moment,
    Day,
    Clock,
}

impl Kind {
    /// The texts of `min` or more letters of the class.
    pub fn texts(class: Class, min: u32) -> Kind
        requires { min ≤ most_length }
        ensures { (fits : min ≤ most_length) → result ≡ texts_of class min fits }
    {
        Kind::Text(TextSet {
            class,
            min,
            max: None,
        })
    }

    /// The texts of `min` to `max` letters of the class.
    pub fn bounded_texts(class: Class, min: u32, max: u32) -> Kind
        requires least { min ≤ most_length }
        requires most { max ≤ most_length }
        ensures { (least : min ≤ most_length) (most : max ≤ most_length) → result ≡ bounded_texts_of class min max least most }
    {
        Kind::Text(TextSet {
            class,
            min,
            max: Some(max),
        })
    }

    /// The whole numbers from `lo` to `hi`.
    pub fn numbers(lo: i64, hi: i64) -> Kind
        ensures { result ≡ numbers_of lo hi }
    {
        Kind::Num(NumRange { lo, hi })
    }

    /// The whole numbers from `lo` to `hi`, with zero as `-`.
    pub fn dashed(lo: i64, hi: i64) -> Kind
        requires { pos 0 ≤ℤ lo }
        ensures { (not_negative : pos 0 ≤ℤ lo) → result ≡ dashed_of lo hi not_negative }
    {
        Kind::DashZero(DashZero { lo, hi })
    }

    /// The whole numbers from `lo` to `hi`, in thousandths.
    pub fn fixed3(lo: i64, hi: i64) -> Kind
        requires { pos 0 ≤ℤ lo }
        ensures { (not_negative : pos 0 ≤ℤ lo) → result ≡ fixed3_of lo hi not_negative }
    {
        Kind::Fixed3(Fixed3 { lo, hi })
    }

    /// The whole numbers from `lo` to `hi`, with leading zeros only up to the width.
    pub fn padded(radix: Radix, width: u8, lo: i64, hi: i64) -> Kind
        requires { pos 0 ≤ℤ lo }
        ensures { (not_negative : pos 0 ≤ℤ lo) → result ≡ padded_of radix width lo hi not_negative }
    {
        Kind::Padded(Padded {
            radix,
            width,
            lo,
            hi,
        })
    }

    /// What sort of values the domain has.
    pub fn value_kind(&self) -> ValueKind
        ensures { result ≡ value_kind self.now }
    {
        match self {
            Kind::Num(_) | Kind::DashZero(_) | Kind::Fixed3(_) | Kind::Padded(_) => {
                ValueKind::Number
            }
            Kind::Words(_) | Kind::Text(_) | Kind::Query(_) => ValueKind::Text,
            Kind::Clf(_) | Kind::Iso(_) | Kind::IsoMillis(_) | Kind::Ha(_) => ValueKind::Moment,
            Kind::Date(_) => ValueKind::Day,
            Kind::Clock(_) => ValueKind::Clock,
        }
    }

    /// An equal domain, on the same allocator.
    pub fn copy(&self) -> Result<Kind, OutOfMemory>
        ensures { IfOk result (λ copy. copy ≡ self.now) }
    {
        match self {
            Kind::Num(d) => Ok(Kind::Num(*d)),
            Kind::DashZero(d) => Ok(Kind::DashZero(*d)),
            Kind::Fixed3(d) => Ok(Kind::Fixed3(*d)),
            Kind::Padded(d) => Ok(Kind::Padded(*d)),
            Kind::Words(d) => Ok(Kind::Words(d.copy()?)),
            Kind::Text(d) => Ok(Kind::Text(*d)),
            Kind::Query(d) => Ok(Kind::Query(*d)),
            Kind::Clf(d) => Ok(Kind::Clf(*d)),
            Kind::Iso(d) => Ok(Kind::Iso(*d)),
            Kind::IsoMillis(d) => Ok(Kind::IsoMillis(*d)),
            Kind::Ha(d) => Ok(Kind::Ha(*d)),
            Kind::Date(d) => Ok(Kind::Date(*d)),
            Kind::Clock(d) => Ok(Kind::Clock(*d)),
        }
    }
}

/// The expression, with the domain of the kind in the place of the name.
macro_rules! with_domain {
    ($kind:expr, $domain:ident => $body:expr) => {
        match $kind {
            Kind::Num($domain) => $body,
            Kind::DashZero($domain) => $body,
            Kind::Fixed3($domain) => $body,
            Kind::Padded($domain) => $body,
            Kind::Words($domain) => $body,
            Kind::Text($domain) => $body,
            Kind::Query($domain) => $body,
            Kind::Clf($domain) => $body,
            Kind::Iso($domain) => $body,
            Kind::IsoMillis($domain) => $body,
            Kind::Ha($domain) => $body,
            Kind::Date($domain) => $body,
            Kind::Clock($domain) => $body,
        }
    };
}

impl Domain for Kind {
    ghost use Rattle.lf_format.specs.Kinds.{HoldsKind, plain_text, kind_machine, kind_size, kind_laws};

    ghost holds = { HoldsKind };

    ghost plain = { plain_text };

    ghost machine = { kind_machine };

    ghost size = { kind_size };

    ghost laws = { kind_laws };

    fn check(&self, value: &Value) -> bool {
        with_domain!(self, domain => domain.check(value))
    }

    fn write_plain(&self, value: &Value, into: &mut Bytes) -> Result<(), OutOfMemory> {
        with_domain!(self, domain => domain.write_plain(value, into))
    }

    fn read_plain(&self, alloc: Global, text: &[u8]) -> Result<Option<Value>, OutOfMemory> {
        with_domain!(self, domain => domain.read_plain(alloc, text))
    }

    fn points(&self) -> u32 {
        with_domain!(self, domain => domain.points())
    }

    fn start(&self) -> u32 {
        with_domain!(self, domain => domain.start())
    }

    fn step(&self, point: u32, letter: u8) -> Option<u32> {
        with_domain!(self, domain => domain.step(point, letter))
    }

    fn ends(&self, point: u32) -> bool {
        with_domain!(self, domain => domain.ends(point))
    }
}
