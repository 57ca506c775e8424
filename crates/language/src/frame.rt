ghost use Rattle.std.specs.Prelude.{◌≡◌, ◌<◌, ◌≤◌, ◌+ℤ◌, ◌-ℤ◌, ◌<ℤ◌, ◌≤ℤ◌, pos, negsuc};
ghost use Rattle.std.specs.Prelude.{unsigned_abs, map, length, replicate, set, true, string_bytes};
ghost use Rattle.std.specs.Prelude.{IfOk, IfErr, OnOk, Some, None};
ghost use Rattle.language.specs.Language.{AreNames};
ghost use Rattle.language.specs.Ranges.{whole_range};
ghost use Rattle.language.specs.Building.{is_domain, values_between, range_between, frame_refusal};
ghost use Rattle.language.specs.Building.{IsFrame};

use crate::parts::LangFault;
use crate::ranges::ValueRange;
use assign::MOST_VARIABLES;
use std::marker::Model;

/// No value lies further than this from 0.
const VALUE_LIMIT: i64 = 1_000_000;

/// The most values that a variable may have.
const MOST_VALUES: i64 = 64;

/// The variables' names, the domain, and the range of each variable.
#[derive(Drop)]
pub struct Frame {
    pub(crate) names: Vec<String>,
    pub(crate) least_value: i64,
    pub(crate) value_count: u8,
    /// The first of them are the variables'.
    pub(crate) ranges: [ValueRange; MOST_VARIABLES as usize],
}

impl Model for Frame {
    ghost use Rattle.language.specs.Ranges.{whole_range};
    ghost use Rattle.language.specs.Building.{Frame};

    ghost Value = { Frame };

    ghost use Rattle.language.specs.Framing.{seen, IsSound};

    ghost view = { seen };

    ghost invariant = { IsSound };
}

/// Whether values from lo to hi are a domain.
fn is_domain(lo: i64, hi: i64) -> bool
    ensures { result ≡ is_domain lo hi }
{
    lo <= hi && -VALUE_LIMIT <= lo && hi <= VALUE_LIMIT && hi - lo < MOST_VALUES
}

/// How many values there are from lo to hi.
fn values_between(lo: i64, hi: i64) -> u8
    requires { is_domain lo hi ≡ true }
    ensures is { result ≡ values_between lo hi }
    ensures some { 1 ≤ result }
    ensures few { result ≤ 64 }
    ensures low { negsuc 999999 ≤ℤ lo }
    ensures high { (lo +ℤ pos result) ≤ℤ pos 1000001 }
{
    (hi - lo) as u8 + 1
}

/// The number of a value that is shown, where lo is the first.
fn index_of(lo: i64, shown: i64) -> u8
    requires { is_domain lo shown ≡ true }
    ensures is { result ≡ unsigned_abs (shown -ℤ lo) }
    ensures shown { (lo +ℤ pos result) ≡ shown }
{
    (shown - lo) as u8
}

/// The range of all values, for as many variables as there may be.
fn whole_ranges(value_count: u8) -> [ValueRange; MOST_VARIABLES as usize]
    requires { 1 ≤ value_count }
    ensures { result ≡ replicate 128 (whole_range value_count) }
{
    let whole = ValueRange {
        first: 0,
        last: value_count - 1,
    };
    [whole; MOST_VARIABLES as usize]
}

impl Frame {
    /// The frame of these variables and of the values from lo to hi: `NoVariables` where no name is
    /// given, `TooManyVariables` for more than 128, `BadDomain` where hi is below lo, a bound lies
    /// outside a million or there are more than 64 values.
    pub fn new(names: Vec<String>, lo: i64, hi: i64) -> Result<Frame, LangFault>
        requires names { AreNames (map string_bytes names.items) }
        ensures names { IfOk result (λ f. f.names ≡ map string_bytes names.items) }
        ensures least { IfOk result (λ f. f.least_value ≡ lo) }
        ensures values { IfOk result (λ f. f.value_count ≡ values_between lo hi) }
        ensures ranges { IfOk result
            (λ f. f.ranges ≡ replicate (length names.items) (whole_range (values_between lo hi))) }
        ensures made { OnOk result (frame_refusal (map string_bytes names.items) lo hi ≡ None) }
        ensures refused { IfErr result
            (λ e. frame_refusal (map string_bytes names.items) lo hi ≡ Some e) }
    {
        if names.is_empty() {
            return Err(LangFault::NoVariables);
        }
        if names.len() > MOST_VARIABLES as usize {
            return Err(LangFault::TooManyVariables);
        }
        if !is_domain(lo, hi) {
            return Err(LangFault::BadDomain);
        }
        let value_count = values_between(lo, hi);
        Ok(Frame {
            names,
            least_value: lo,
            value_count,
            ranges: whole_ranges(value_count),
        })
    }

    /// Gives a variable the values that are shown as first to last. Without this it has all values.
    pub fn with_range(&mut self, v: u8, first: i64, last: i64)
        requires variable { v < length self.old.names }
        requires low { self.old.least_value ≤ℤ first }
        requires some { first ≤ℤ last }
        requires high { last <ℤ (self.old.least_value +ℤ pos self.old.value_count) }
        ensures names { self.new.names ≡ self.old.names }
        ensures least { self.new.least_value ≡ self.old.least_value }
        ensures values { self.new.value_count ≡ self.old.value_count }
        ensures ranges { self.new.ranges
            ≡ set self.old.ranges v (range_between self.old.least_value first last) }
    {
        self.ranges[v as usize] = ValueRange {
            first: index_of(self.least_value, first),
            last: index_of(self.least_value, last),
        };
    }

    /// The lowest value.
    pub fn lo(&self) -> i64
        ensures is { result ≡ self.now.least_value }
        ensures lawful { IsFrame self.now }
    {
        self.least_value
    }

    /// How many values each variable may have.
    pub fn d(&self) -> u8
        ensures is { result ≡ self.now.value_count }
        ensures lawful { IsFrame self.now }
    {
        self.value_count
    }
}
