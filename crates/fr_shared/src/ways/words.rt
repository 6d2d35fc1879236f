//! The word that holds the ways of a node.

ghost use Rattle.std.specs.Prelude.{◌≡◌, ℕ, ◌<◌, ◌≤◌, ◌%◌, false, true, filter, length, not, slice_index, take, drop};
ghost use Rattle.std.specs.Prelude.{IfNone, IfSome};
ghost use Rattle.std.specs.List.{list_any};
ghost use Rattle.fr_ways.specs.Phases.{is_way};
ghost use Rattle.fr_shared.specs.WayTables.{Fit, ways_of, word_of};

/// How many ways a word can hold.
pub(crate) const MOST: usize = 5;

/// The word of these ways.
pub(crate) fn word(ways: &[u32]) -> u64
    requires { Fit ways.now }
    ensures word { result ≡ word_of ways.now }
    ensures held { ways_of result ≡ ways.now }
{
    let mut digits: u64 = 0;
    let mut k = ways.len();
    while k > 0 {
        k -= 1;
        digits = digits * 4096 + u64::from(ways[k]);
    }
    digits * 16 + ways.len() as u64
}

/// How many ways a word holds.
pub(crate) fn count_in(word: u64) -> usize
    ensures { result ≡ length (ways_of word) }
{
    (word % 16) as usize
}

/// One of the ways that a word holds.
pub(crate) fn way_in(word: u64, k: usize) -> u32
    requires word { length (ways_of word) ≤ 5 }
    requires place { k < length (ways_of word) }
    ensures { result ≡ slice_index (ways_of word) k }
{
    ((word >> (4 + 12 * k as u32)) % 4096) as u32
}

/// Writes the ways that a word holds to the front of a list, and returns how many they are. The rest of the list is
/// unchanged.
pub(crate) fn copy_ways(word: u64, list: &mut [u32; MOST]) -> usize
    requires { length (ways_of word) ≤ 5 }
    ensures count { result ≡ length (ways_of word) }
    ensures ways { take result list.new ≡ ways_of word }
    ensures rest { drop result list.new ≡ drop result list.old }
{
    let count = count_in(word);
    for k in 0..count {
        list[k] = way_in(word, k);
    }
    count
}

/// Whether one of the old ways is none of the new ones.
fn loses_way(old: &[u32], new: &[u32]) -> bool
    ensures { result ≡ list_any (λ y. not (is_way new.now y)) old.now }
{
    old.iter().any(|y| !new.contains(y))
}

/// Writes those of the new ways that are old ones too to the front of a list, and returns how many they are.
fn copy_kept_ways(old: &[u32], new: &[u32], list: &mut [u32; MOST]) -> usize
    requires { length new.now ≤ 5 }
    ensures few { result ≤ 5 }
    ensures kept { take result list.new ≡ filter (is_way old.now) new.now }
{
    let mut count = 0;
    for y in new {
        if old.contains(y) {
            list[count] = *y;
            count += 1;
        }
    }
    count
}

/// If a node that has the ways of one word loses a way when it gets those of another: writes the ways that it keeps to
/// the front of a list, and returns how many they are. `None` if it loses no way.
pub(crate) fn kept_ways_of_loser(old: u64, new: u64, list: &mut [u32; MOST]) -> Option<usize>
    requires old { length (ways_of old) ≤ 5 }
    requires new { length (ways_of new) ≤ 5 }
    ensures none { IfNone result (list_any (λ y. not (is_way (ways_of new) y)) (ways_of old) ≡ false) }
    ensures loses { IfSome result (λ _. list_any (λ y. not (is_way (ways_of new) y)) (ways_of old) ≡ true) }
    ensures few { IfSome result (λ count. count ≤ 5) }
    ensures kept { IfSome result (λ count. take count list.new ≡ filter (is_way (ways_of old)) (ways_of new)) }
{
    let mut before = [0; MOST];
    let mut after = [0; MOST];
    let before_count = copy_ways(old, &mut before);
    let after_count = copy_ways(new, &mut after);
    if !loses_way(&before[..before_count], &after[..after_count]) {
        return None;
    }
    Some(copy_kept_ways(&before[..before_count], &after[..after_count], list))
}
