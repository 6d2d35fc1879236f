//! Which ways a node keeps and which it loses, without looking for each way in a list.

ghost use Rattle.std.specs.Prelude.{◌≡◌, ℕ, ◌<◌, ◌≤◌, ◌+◌, ◌++◌, All, IfOk, OnOk, false, filter, length, not};
ghost use Rattle.std.specs.Prelude.{replicate, slice_index_or, vec_capacity};
ghost use Rattle.std.specs.List.{list_any};
ghost use Rattle.fr_ways.specs.Phases.{is_way};
ghost use Rattle.fr_ways.specs.Plans.{AreNoted, IsClear};

use std::alloc::{AllocError, Global};

/// Memory to compare lists of ways.
#[derive(Debug, Drop)]
pub(crate) struct Comparison {
    // Whether each node is in the list that is compared. Between calls all are `false`.
    noted: Vec<bool>,
    /// What the last call of `keep_common_ways` kept.
    pub kept: Vec<u32>,
}

impl Comparison {
    /// Memory to compare the ways of tables of so many nodes.
    pub(crate) fn new(alloc: Global, nodes: usize) -> Result<Comparison, AllocError>
        ensures { IfOk result (IsClear nodes) }
    {
        Ok(Comparison {
            noted: vec![in alloc; false; nodes]?,
            kept: Vec::new(alloc),
        })
    }

    /// Whether an old way is not among the new ways.
    pub(crate) fn loses_way(&mut self, old: &[u32], new: &[u32]) -> bool
        requires clear { (nodes : ℕ) × IsClear nodes self.old × All (λ (y : ℕ). y < nodes) new.now }
        ensures loses { result ≡ list_any (λ y. not (is_way new.now y)) old.now }
        ensures clear { (nodes : ℕ) → IsClear nodes self.old → IsClear nodes self.new }
    {
        loses_way(&mut self.noted, old, new)
    }

    /// Keeps those of the new ways that are old ones too.
    pub(crate) fn keep_common_ways(&mut self, old: &[u32], new: &[u32]) -> Result<(), AllocError>
        requires clear { (nodes : ℕ) × IsClear nodes self.old × All (λ (y : ℕ). y < nodes) new.now }
        ensures kept { OnOk result (self.new.kept.items ≡ filter (is_way old.now) new.now) }
        ensures clear { (nodes : ℕ) → IsClear nodes self.old → IsClear nodes self.new }
    {
        self.kept.clear();
        self.kept.reserve(new.len())?;
        copy_kept(&mut self.noted, old, new, &mut self.kept);
        Ok(())
    }
}

/// Whether an old way is not among the new ways. `noted` has a place for each node. All are `false`, before the call
/// and after it.
pub(crate) fn loses_way(noted: &mut [bool], old: &[u32], new: &[u32]) -> bool
    requires clear { noted.old ≡ replicate (length noted.old) false }
    requires range { All (λ (y : ℕ). y < length noted.old) new.now }
    ensures loses { result ≡ list_any (λ y. not (is_way new.now y)) old.now }
    ensures same { noted.new ≡ noted.old }
{
    note_ways(noted, new);
    let loses = has_unnoted_way(noted, old);
    clear_notes(noted, new);
    loses
}

/// Appends to the list those of the new ways that are old ones too. There must be room for all the new ways. `noted` is
/// as for [`loses_way`].
pub(crate) fn copy_kept(noted: &mut [bool], old: &[u32], new: &[u32], list: &mut Vec<u32>)
    requires clear { noted.old ≡ replicate (length noted.old) false }
    requires range { All (λ (y : ℕ). y < length noted.old) new.now }
    requires room { length list.old.items + length new.now ≤ vec_capacity list.old }
    ensures kept { list.new.items ≡ list.old.items ++ filter (is_way old.now) new.now }
    ensures same_room { vec_capacity list.new ≡ vec_capacity list.old }
    ensures same { noted.new ≡ noted.old }
{
    note_ways(noted, old);
    copy_noted(noted, new, list);
    clear_notes(noted, old);
}

/// Whether this node is noted.
fn is_noted(noted: &[bool], y: u32) -> bool
    ensures { result ≡ slice_index_or noted.now y false }
{
    noted.get(y as usize).copied().unwrap_or(false)
}

/// Notes these ways, except those that name no node.
fn note_ways(noted: &mut [bool], ways: &[u32])
    requires { noted.old ≡ replicate (length noted.old) false }
    ensures one_each { length noted.new ≡ length noted.old }
    ensures noted { AreNoted ways.now noted.new }
{
    for y in ways {
        if (*y as usize) < noted.len() {
            noted[*y as usize] = true;
        }
    }
}

/// Undoes [`note_ways`].
fn clear_notes(noted: &mut [bool], ways: &[u32])
    requires { AreNoted ways.now noted.old }
    ensures { noted.new ≡ replicate (length noted.old) false }
{
    for y in ways {
        if (*y as usize) < noted.len() {
            noted[*y as usize] = false;
        }
    }
}

/// Whether one of these ways is not noted.
fn has_unnoted_way(noted: &[bool], ways: &[u32]) -> bool
    ensures { result ≡ list_any (λ y. not (slice_index_or noted.now y false)) ways.now }
{
    ways.iter().any(|y| !is_noted(noted, *y))
}

/// Appends to the list those of these ways that are noted.
fn copy_noted(noted: &[bool], ways: &[u32], list: &mut Vec<u32>)
    requires { length list.old.items + length ways.now ≤ vec_capacity list.old }
    ensures noted { list.new.items ≡ list.old.items ++ filter (λ y. slice_index_or noted.now y false) ways.now }
    ensures same_room { vec_capacity list.new ≡ vec_capacity list.old }
{
    for y in ways {
        if is_noted(noted, *y) {
            list.push_reserved(*y);
        }
    }
}
