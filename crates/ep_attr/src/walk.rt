//! One walk over the pairs of two maps, for each operation on them.

ghost use Rattle.std.specs.Prelude.{◌≡◌, ◌+◌, ◌<◌, [], ◌++◌, length, option_map, IfOk, OnOk};
ghost use Rattle.ep_attr.specs.AttrMap.{value_after, later_value, value_left};
ghost use Rattle.ep_attr.specs.Attrs.{pairs_of};
ghost use Rattle.ep_attr.specs.Merged.{given, merged};
ghost use Rattle.ep_attr.specs.Rule.{value_of};

use crate::attr_map::Attr;
use ep_units::{NoMemory, Units};
use std::alloc::Global;
use std::cmp::Ordering;

/// What becomes of the two values at a key.
#[derive(Clone, Copy)]
pub(crate) enum Rule {
    /// A document's value after a change's, of which the empty one removes.
    After,
    /// The later value counts.
    Join,
    /// The second value, unless the first is equal or earlier.
    Rest,
}

impl Rule {
    fn value<'a>(self, left: Option<&'a Units>, right: Option<&'a Units>) -> Option<&'a Units>
        ensures { option_map (λ v. v.now) result ≡ value_of self (option_map (λ v. v.now) left.entry) (option_map (λ v. v.now) right.entry) }
    {
        match self {
            Rule::After => value_after(left, right),
            Rule::Join => later_value(left, right),
            Rule::Rest => value_left(left, right),
        }
    }
}

fn value_after<'a>(old: Option<&'a Units>, new: Option<&'a Units>) -> Option<&'a Units>
    ensures { option_map (λ v. v.now) result ≡ value_after (option_map (λ v. v.now) old.entry) (option_map (λ v. v.now) new.entry) }
{
    match new {
        None => old,
        Some(value) => { if value.is_empty() { None } else { Some(value) } }
    }
}

fn later_value<'a>(earlier: Option<&'a Units>, later: Option<&'a Units>) -> Option<&'a Units>
    ensures { option_map (λ v. v.now) result ≡ later_value (option_map (λ v. v.now) earlier.entry) (option_map (λ v. v.now) later.entry) }
{
    match later {
        None => earlier,
        Some(value) => Some(value),
    }
}

fn value_left<'a>(taken: Option<&'a Units>, value: Option<&'a Units>) -> Option<&'a Units>
    ensures { option_map (λ v. v.now) result ≡ value_left (option_map (λ v. v.now) taken.entry) (option_map (λ v. v.now) value.entry) }
{
    match (taken, value) {
        (None, value) => value,
        (Some(_), None) => None,
        (Some(taken), Some(value)) => { if taken <= value { None } else { Some(value) } }
    }
}

/// What is left of two lists of pairs.
#[derive(Clone, Copy)]
struct Remaining<'a> {
    left: &'a [Attr],
    right: &'a [Attr],
}

/// Appends the value that the rule makes at a key, where there is one.
fn put(
    alloc: Global,
    rule: Rule,
    key: &Units,
    left: Option<&Units>,
    right: Option<&Units>,
    made: &mut Vec<Attr>,
) -> Result<(), NoMemory>
    ensures { OnOk result (pairs_of made.new.items ≡ pairs_of made.old.items ++ given key.now (value_of rule (option_map (λ v. v.now) left.entry) (option_map (λ v. v.now) right.entry)) []) }
{
    match rule.value(left, right) {
        None => Ok(()),
        Some(value) => {
            let key = key.copy(alloc)?;
            let value = value.copy(alloc)?;
            made.push(Attr { key, value })?;
            Ok(())
        }
    }
}

/// Appends what the rule makes at the least key that is left.
fn put_least<'a>(
    alloc: Global,
    rule: Rule,
    remaining: Remaining<'a>,
    made: &mut Vec<Attr>,
) -> Result<Remaining<'a>, NoMemory>
    requires { 0 < length remaining.left.now + length remaining.right.now }
    ensures made { IfOk result (λ rest. pairs_of made.new.items ++ merged (value_of rule) (pairs_of rest.left.now) (pairs_of rest.right.now)
        ≡ pairs_of made.old.items ++ merged (value_of rule) (pairs_of remaining.entry.left.now) (pairs_of remaining.entry.right.now)) }
    ensures shorter { IfOk result (λ rest. length rest.left.now + length rest.right.now < length remaining.entry.left.now + length remaining.entry.right.now) }
{
    let Remaining { left, right } = remaining;
    match (left, right) {
        ([], []) => Ok(remaining),
        ([a, lefts @ ..], []) => {
            put(alloc, rule, &a.key, Some(&a.value), None, made)?;
            Ok(Remaining { left: lefts, right })
        }
        ([], [b, rights @ ..]) => {
            put(alloc, rule, &b.key, None, Some(&b.value), made)?;
            Ok(Remaining {
                left,
                right: rights,
            })
        }
        ([a, lefts @ ..], [b, rights @ ..]) => match a.key.cmp(&b.key) {
            Ordering::Less => {
                put(alloc, rule, &a.key, Some(&a.value), None, made)?;
                Ok(Remaining { left: lefts, right })
            }
            Ordering::Equal => {
                put(alloc, rule, &a.key, Some(&a.value), Some(&b.value), made)?;
                Ok(Remaining {
                    left: lefts,
                    right: rights,
                })
            }
            Ordering::Greater => {
                put(alloc, rule, &b.key, None, Some(&b.value), made)?;
                Ok(Remaining {
                    left,
                    right: rights,
                })
            }
        },
    }
}

/// What the rule makes of two lists of pairs by rising key.
pub(crate) fn merged(
    alloc: Global,
    rule: Rule,
    left: &[Attr],
    right: &[Attr],
) -> Result<Vec<Attr>, NoMemory>
    ensures { IfOk result (λ made. pairs_of made.items ≡ merged (value_of rule) (pairs_of left.now) (pairs_of right.now)) }
{
    let mut made = Vec::new(alloc);
    let mut remaining = Remaining { left, right };
    while !remaining.left.is_empty() || !remaining.right.is_empty() {
        remaining = put_least(alloc, rule, remaining, &mut made)?;
    }
    Ok(made)
}
