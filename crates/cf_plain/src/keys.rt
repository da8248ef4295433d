// Which keys go first, and marks on keys.
ghost use Rattle.std.specs.Prelude.{◌≡◌, nat_lt, Some, map};
ghost use Rattle.std.specs.Ordering.{nat_cmp};
ghost use Rattle.cf_shape.specs.Lanes.{both_keys};
ghost use Rattle.cf_plain.specs.Groups.{as_group, fired_at, pair_of};

use crate::{Fired, Group};
use std::cmp::Ordering;

// How the keys stand to the other ones: by the first, and where those are equal by the one that is beside it. Keys with none beside
// the first go before those that have one.
pub(crate) fn compare_keys(key: u64, by: Option<u64>, other: u64, other_by: Option<u64>) -> Ordering
    ensures { result ≡ nat_cmp (both_keys key by) (both_keys other other_by) }
{
    match by {
        None => match other_by {
            None => key.cmp(&other),
            Some(_) => Ordering::Less,
        },
        Some(by) => match other_by {
            None => Ordering::Greater,
            Some(other_by) => compare_both(key, by, other, other_by),
        },
    }
}

// The same where both have two keys.
fn compare_both(key: u64, by: u64, other: u64, other_by: u64) -> Ordering
    ensures { result ≡ nat_cmp (both_keys key (Some by)) (both_keys other (Some other_by)) }
{
    match key.cmp(&other) {
        Ordering::Equal => by.cmp(&other_by),
        order => order,
    }
}

// Whether the keys go before the other ones.
pub(crate) fn is_before(key: u64, by: Option<u64>, other: u64, other_by: Option<u64>) -> bool
    ensures { result ≡ nat_lt (both_keys key by) (both_keys other other_by) }
{
    matches!(compare_keys(key, by, other, other_by), Ordering::Less)
}

// A mark with that number on the keys.
pub(crate) fn mark_at(key: u64, by: Option<u64>, value: u64) -> Fired
    ensures { result ≡ fired_at (both_keys key by) value }
{
    match by {
        None => Fired {
            bucket: key,
            key: None,
            value,
        },
        Some(by) => Fired {
            bucket: key,
            key: Some(by),
            value,
        },
    }
}

// The group is what its keys in one number tell, as both are below 2^64.
fn read_key(group: &Group)
    ensures { group.now ≡ as_group (pair_of group.now) }
{
    let _key = group.key;
    if let Some(by) = group.by {
        let _by = by;
    }
}

/// Reads the keys of the groups. Each group is what its keys in one number tell.
pub fn read_keys(groups: &[Group])
    ensures { groups.now ≡ map as_group (map pair_of groups.now) }
{
    for group in groups {
        read_key(group);
    }
}
