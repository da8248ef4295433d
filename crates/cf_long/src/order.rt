// What was found in a log, told of its rows in the order in which they came.
ghost use Rattle.std.specs.Prelude.{◌≡◌, ◌-◌, ◌<◌, All, length, map, slice_index_or, IfOk};
ghost use Rattle.cf_long.specs.ByRow.{by_row as by_row_of, places_by_row, IsFoundWithin};

use cf_plain::{Finding, Places};
use cf_row::Memory;
use std::alloc::Global;

// How far the numbers of the entries at some places are behind the first one.
fn behind_first(alloc: Global, nums: &[u32], first: u32, places: &[u32]) -> Result<Vec<u32>, Memory>
    requires within { All (λ place. place < length nums.now) places.now }
    ensures { IfOk result (λ found. found.items ≡ map (λ place. slice_index_or nums.now place 0 - first) places.now) }
{
    let mut found = Vec::with_capacity(alloc, places.len())?;
    for place in places {
        let num = nums[*place as usize];
        found.push(num.saturating_sub(first))?;
    }
    Ok(found)
}

// The same, ascending.
fn sorted_by_row(
    alloc: Global,
    nums: &[u32],
    first: u32,
    places: &[u32],
) -> Result<Vec<u32>, Memory>
    requires within { All (λ place. place < length nums.now) places.now }
    ensures { IfOk result (λ found. found.items ≡ places_by_row first nums.now places.now) }
{
    let mut found = behind_first(alloc, nums, first, places)?;
    found.sort_unstable();
    Ok(found)
}

// What was found in a log whose entries have these numbers, told of its rows, which are numbered one by one from the first.
fn by_row(alloc: Global, nums: &[u32], first: u32, found: Finding) -> Result<Finding, Memory>
    requires within { IsFoundWithin (length nums.now) found }
    ensures { IfOk result (λ told. told ≡ by_row_of first nums.now found) }
{
    match found {
        Finding::Places(places) => {
            let told = sorted_by_row(alloc, nums, first, places.as_slice())?;
            Ok(Finding::Places(Places::new(told)))
        }
        Finding::Total(quad) => Ok(Finding::Total(quad)),
        Finding::Groups(groups) => Ok(Finding::Groups(groups)),
    }
}

/// All that was found in a log whose entries have these numbers, told of its rows, which are numbered one by one from the first.
pub(crate) fn all_by_row(
    alloc: Global,
    nums: &[u32],
    first: u32,
    found: Vec<Finding>,
) -> Result<Vec<Finding>, Memory>
    requires within { All (IsFoundWithin (length nums.now)) found.items }
    ensures { IfOk result (λ told. told.items ≡ map (by_row_of first nums.now) found.items) }
{
    let mut told = Vec::with_capacity(alloc, found.len())?;
    for finding in found {
        told.push(by_row(alloc, nums, first, finding)?)?;
    }
    Ok(told)
}
