//! Pools from JSON.

ghost use Rattle.std.specs.Prelude.{IfErr, IsSomeAnd, ◌⊎◌, codes, is_some, nat_lt, not, true, ◌≡◌, ◌≤◌, ◌<◌, ◌↔◌, ◌≢◌, ℕ, Some, None, option_map, IsSome, IsTrue, IfSome, IfOk, IsErrOf, decimal, length, slice_get};
ghost use Rattle.serde_json.specs.Find.{as_object, get, get_member};
ghost use Rattle.serde_json.specs.View.{members_view, view};
ghost use Rattle.ep_units.specs.Utf8.{units_of};
ghost use Rattle.ep_pool.specs.Read.{AreEntries, AreTexts, HasEntries, IsBadAs, IsLeast, IsPoolOf, IsText, entry_in, most_number, next_num, pair_read};
ghost use Rattle.ep_pool.specs.Searching.{is_before};
ghost use Rattle.ep_pool.specs.Pool.{pair_of};

use crate::pool::Pool;
use ep_attr::Attr;
use ep_units::{NoMemory, Units};
use itoa::Buffer;
use serde_json::{Map, Value};
use std::alloc::Global;
use thiserror::Error;

/// A member of a pool's JSON.
#[derive(Clone, Copy, Debug, PartialEq, Eq)]
pub enum PoolMember {
    /// `nextNum`
    NextNum,
    /// `numToAttrib`
    NumToAttrib,
}

/// Why a JSON value is no pool.
#[derive(Clone, Copy, Debug, Error, PartialEq, Eq)]
pub enum PoolBad {
    /// The member is missing, or isn't what it should be by itself.
    #[error("a pool's {0:?} is missing or has a wrong shape")]
    Shape(PoolMember),
    /// The least number below `nextNum` without an attribute, or with one and not below.
    #[error("attribute {0} is missing, or there are fewer")]
    Gap(u64),
    /// The least number whose attribute has a lower number too.
    #[error("attribute {0} has a lower number too")]
    Twice(u64),
    #[error("out of memory")]
    NoMemory,
}

impl From<NoMemory> for PoolBad {
    ghost use Rattle.std.specs.Prelude.{◌≡◌};
    ghost use Rattle.ep_pool.specs.declared.from_json.PoolBad.TheVariants as bad;

    ghost from_gives = { λ _ e. e ≡ bad.NoMemory };

    fn from(_error: NoMemory) -> PoolBad {
        PoolBad::NoMemory
    }
}

/// The greatest whole number that every JavaScript engine keeps exactly.
const MOST_NUMBER: u64 = 9_007_199_254_740_991;

fn next_num(value: &Value) -> Option<u64>
    ensures number { result ≡ next_num (view value.now) }
    ensures small { IfSome result (λ n. n ≤ most_number) }
{
    let number = value.get("nextNum").and_then(Value::as_u64)?;
    if number <= MOST_NUMBER {
        Some(number)
    } else {
        None
    }
}

/// Whether the key is that number in its shortest form, and it is small enough.
fn is_name_of(number: u64, key: &str) -> bool
    ensures { IsTrue result ↔ ((number ≤ most_number) × (key.now ≡ decimal number)) }
{
    let mut buffer = Buffer::new();
    number <= MOST_NUMBER && buffer.format(number) == key
}

fn number_of_key(key: &str) -> Option<u64>
    ensures some { IfSome result (λ n. (n ≤ most_number) × (key.now ≡ decimal n)) }
    ensures none { result ≡ None → (n : ℕ) → n ≤ most_number → key.now ≢ decimal n }
{
    match key.parse::<u64>() {
        Ok(number) => {
            if is_name_of(number, key) {
                Some(number)
            } else {
                None
            }
        }
        Err(_) => None,
    }
}

fn two_texts(value: &Value) -> Option<(&str, &str)>
    ensures { option_map (λ t. (units_of t.0.now, units_of t.1.now)) result ≡ pair_read (view value.now) }
{
    let key = value.get(0).and_then(Value::as_str)?;
    let text = value.get(1).and_then(Value::as_str)?;
    if value.get(2).is_some() {
        None
    } else {
        Some((key, text))
    }
}

fn are_entries(members: &Map<String, Value>) -> bool
    ensures { IsTrue result ↔ AreEntries (members_view members.now.entries) }
{
    for (key, value) in members.iter() {
        if number_of_key(key.as_str()).is_none() || two_texts(value).is_none() {
            return false;
        }
    }
    true
}

fn entry(attribs: &Value, n: u64) -> Option<(&str, &str)>
    ensures { option_map (λ t. (units_of t.0.now, units_of t.1.now)) result ≡ entry_in (view attribs.now) n }
{
    let mut buffer = Buffer::new();
    two_texts(attribs.get(buffer.format(n))?)
}

fn first_missing(attribs: &Value, next: u64) -> Option<u64>
    ensures some { IfSome result (λ n. (n < next) × (entry_in (view attribs.now) n ≡ None) × ((k : ℕ) → k < n → IsSome (entry_in (view attribs.now) k))) }
    ensures none { result ≡ None → (k : ℕ) → k < next → IsSome (entry_in (view attribs.now) k) }
{
    for n in 0..next {
        if entry(attribs, n).is_none() {
            return Some(n);
        }
    }
    None
}

// The lesser of a number found before and that of the key, where this isn't below `next`.
fn nearer(least: Option<u64>, key: &str, next: u64) -> Option<u64>
    ensures found { IfSome result (λ m. (least ≡ Some m) ⊎ ((next ≤ m) × (m ≤ most_number) × (key.now ≡ decimal m))) }
    ensures passed { (k : ℕ) → next ≤ k → k ≤ most_number → is_before k result ≡ true → (is_before k least ≡ true) × (key.now ≢ decimal k) }
{
    match number_of_key(key) {
        Some(n) if next <= n => match least {
            Some(m) if m <= n => least,
            _ => Some(n),
        },
        _ => least,
    }
}

fn first_beyond(members: &Map<String, Value>, next: u64) -> Option<u64>
    ensures some { IfSome result (λ n. (next ≤ n) × (n ≤ most_number) × IsSome (get_member (decimal n) (members_view members.now.entries))) }
    ensures rest { (k : ℕ) → next ≤ k → k ≤ most_number → is_before k result ≡ true → get_member (decimal k) (members_view members.now.entries) ≡ None }
{
    let mut least = None;
    for (key, _value) in members.iter() {
        least = nearer(least, key.as_str(), next);
    }
    least
}

fn first_gap(attribs: &Value, next: u64) -> Option<u64>
    requires small { next ≤ most_number }
    requires all { IsSomeAnd (as_object (view attribs.now)) AreEntries }
    ensures some { IfSome result (IsLeast (λ n. (n ≤ most_number) × (nat_lt n next ≡ not (is_some (entry_in (view attribs.now) n))))) }
    ensures none { result ≡ None → (n : ℕ) → n ≤ most_number → nat_lt n next ≡ is_some (entry_in (view attribs.now) n) }
{
    match first_missing(attribs, next) {
        Some(n) => Some(n),
        None => first_beyond(attribs.as_object()?, next),
    }
}

fn attribs_of(value: &Value) -> Option<&Value>
    ensures some { IfSome result (λ a. (get (codes "numToAttrib") (view value.now) ≡ Some (view a.now)) × IsSomeAnd (as_object (view a.now)) AreEntries) }
    ensures none { result ≡ None → HasEntries (view value.now) → ⊥ }
{
    let attribs = value.get("numToAttrib")?;
    if are_entries(attribs.as_object()?) {
        Some(attribs)
    } else {
        None
    }
}

fn attr_of(alloc: Global, key: &str, value: &str) -> Result<Attr, NoMemory>
    ensures pair { IfOk result (λ a. pair_of a ≡ (units_of key.now, units_of value.now)) }
    ensures texts { IfOk result (λ a. IsText a.key × IsText a.value) }
{
    Ok(Attr {
        key: Units::from_str(alloc, key)?,
        value: Units::from_str(alloc, value)?,
    })
}

/// The pool of the entries below `next`. One that can number no more answers as for want of memory.
fn gather(alloc: Global, attribs: &Value, next: u64) -> Result<Pool, PoolBad>
    requires { (k : ℕ) → k < next → IsSome (entry_in (view attribs.now) k) }
    ensures len { IfOk result (λ p. length p.pairs ≡ next) }
    ensures entries { IfOk result (λ p. (k : ℕ) → k < next → entry_in (view attribs.now) k ≡ slice_get p.pairs k) }
    ensures texts { IfOk result (λ p. AreTexts p.pairs) }
    ensures bad { IfErr result (λ e. (e ≡ PoolBad.NoMemory) ⊎ ((n : ℕ) × (e ≡ PoolBad.Twice n) × (n < next)
        × IsLeast (λ m. (k : ℕ) × (k < m) × (entry_in (view attribs.now) k ≡ entry_in (view attribs.now) m)) n)) }
{
    let Ok(count) = u32::try_from(next) else {
        return Err(PoolBad::NoMemory);
    };
    let mut pool = Pool::new(alloc);
    pool.reserve(count)?;
    for n in 0..count {
        let number = u64::from(n);
        let (key, value) = entry(attribs, number).unwrap();
        if pool.put(attr_of(alloc, key, value)?) < n {
            return Err(PoolBad::Twice(number));
        }
    }
    Ok(pool)
}

impl Pool {
    /// Other members of the value are ignored.
    pub fn from_json(alloc: Global, value: &Value) -> Result<Pool, PoolBad>
        ensures pool { IfOk result (λ p. IsPoolOf (view value.now) p.pairs) }
        ensures texts { IfOk result (λ p. AreTexts p.pairs) }
        ensures bad { IfErr result (λ e. (e ≡ PoolBad.NoMemory) ⊎ IsBadAs (view value.now) e) }
    {
        let Some(next) = next_num(value) else {
            return Err(PoolBad::Shape(PoolMember::NextNum));
        };
        let Some(attribs) = attribs_of(value) else {
            return Err(PoolBad::Shape(PoolMember::NumToAttrib));
        };
        match first_gap(attribs, next) {
            Some(n) => Err(PoolBad::Gap(n)),
            None => gather(alloc, attribs, next),
        }
    }
}
