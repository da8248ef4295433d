// Groups of several logs are merged, as the words that readers tell.
ghost use Rattle.std.specs.Prelude.{◌≡◌, ◌+◌, ◌*◌, ◌<◌, ◌≤◌, ◌^◌, ◌++◌, ◌↔◌, length, map, true, IfOk, MatchOption};
ghost use Rattle.cf_plain.specs.Groups.{pair_of};
ghost use Rattle.cf_plain.specs.Segments.{merged, numbers_in};
ghost use Rattle.cf_store.specs.Asks.{groups_words};
ghost use Rattle.cf_store.specs.Merges.{AreGroups, CanMerge, IsToldQuad, Merges, group_at as group_at_of, groups_in, quad_at};

use crate::reader::group_words;
use crate::refusals::MergeRefusal;
use cf_fold::Quad;
use cf_plain::{Finding, Group, Groups};
use cf_row::Memory;
use std::alloc::Global;

// Whether these are the numbers of a quad that a log may have.
fn is_quad(count: u64, sum: u64, least: u64, greatest: u64) -> bool
    ensures { (result ≡ true) ↔ IsToldQuad (record { count = count; sum = sum; least = least; greatest = greatest }) }
{
    if count == 0 {
        return sum == 0 && least == 0 && greatest == 0;
    }
    count <= 0x10_0000
        && sum <= count * 0xffff_ffff
        && least <= 0xffff_ffff
        && greatest <= 0xffff_ffff
}

// Whether the five words at a place are a group.
fn is_group_at(words: &[u64], place: usize) -> bool
    requires { 5 * place + 5 ≤ length words.now }
    ensures { (result ≡ true) ↔ IsToldQuad (quad_at words.now place) }
{
    let at = 5 * place;
    is_quad(words[at + 1], words[at + 2], words[at + 3], words[at + 4])
}

// Whether the words are those of groups.
fn are_groups(words: &[u64]) -> bool
    ensures { (result ≡ true) ↔ AreGroups words.now }
{
    let count = words.len() / 5;
    if count * 5 != words.len() {
        return false;
    }
    for k in 0..count {
        if !is_group_at(words, k) {
            return false;
        }
    }
    true
}

// How many more numbers than those of the groups there is room for, if there is room for those.
fn room_behind(words: &[u64], room: u64) -> Option<u64>
    ensures { MatchOption result (room < numbers_in (groups_in words.now)) (λ left. left + numbers_in (groups_in words.now) ≡ room) }
{
    let mut left = room;
    for k in 0..words.len() / 5 {
        let Some(less) = left.checked_sub(words[5 * k + 1]) else {
            return None;
        };
        left = less;
    }
    Some(left)
}

// Whether both lists are of groups, and of at most 2^20 numbers together.
fn can_merge(one: &[u64], other: &[u64]) -> bool
    ensures { (result ≡ true) ↔ CanMerge one.now other.now }
{
    if !are_groups(one) || !are_groups(other) {
        return false;
    }
    match room_behind(one, 0x10_0000) {
        Some(room) => room_behind(other, room).is_some(),
        None => false,
    }
}

// The group that the five words at a place are.
fn group_at(words: &[u64], place: usize) -> Group
    requires place { 5 * place + 5 ≤ length words.now }
    requires quad { IsToldQuad (quad_at words.now place) }
    ensures { pair_of result ≡ group_at_of words.now place }
{
    let at = 5 * place;
    Group {
        key: words[at],
        by: None,
        quad: Quad::new(words[at + 1], words[at + 2], words[at + 3], words[at + 4]),
    }
}

// The groups that the words are.
fn groups_of(alloc: Global, words: &[u64]) -> Result<Vec<Group>, Memory>
    requires { AreGroups words.now }
    ensures { IfOk result (λ groups. map pair_of groups.items ≡ groups_in words.now) }
{
    let mut groups = Vec::new(alloc);
    for k in 0..words.len() / 5 {
        groups.push(group_at(words, k))?;
    }
    Ok(groups)
}

// The groups of both lists of words, one behind the other.
fn both_of(alloc: Global, one: &[u64], other: &[u64]) -> Result<Vec<Group>, Memory>
    requires { AreGroups one.now × AreGroups other.now }
    ensures { IfOk result (λ groups. map pair_of groups.items ≡ groups_in one.now ++ groups_in other.now) }
{
    let mut groups = groups_of(alloc, one)?;
    let more = groups_of(alloc, other)?;
    groups.extend_from_slice(&more)?;
    Ok(groups)
}

// The words of the groups, those of one key merged.
fn merged_words(alloc: Global, groups: Vec<Group>) -> Result<Vec<u64>, Memory>
    requires { numbers_in (map pair_of groups.items) ≤ 2 ^ 20 }
    ensures { IfOk result (λ words. words.items ≡ groups_words (merged (map pair_of groups.items))) }
{
    let none = Finding::Groups(Groups::new(Vec::new(alloc)));
    match Finding::Groups(Groups::new(groups)).join(alloc, 0, none)? {
        Finding::Groups(all) => group_words(alloc, all.as_slice()),
        _ => unreachable!(),
    }
}

/// The words of the groups of both lists, as readers tell groups: those of one key are merged, ascending by key.
pub fn merge(alloc: Global, one: &[u64], other: &[u64]) -> Result<Vec<u64>, MergeRefusal>
    ensures { Merges one.now other.now result }
{
    if !can_merge(one, other) {
        return Err(MergeRefusal::NoGroups);
    }
    let Ok(groups) = both_of(alloc, one, other) else {
        return Err(MergeRefusal::Memory);
    };
    match merged_words(alloc, groups) {
        Ok(words) => Ok(words),
        Err(_) => Err(MergeRefusal::Memory),
    }
}
