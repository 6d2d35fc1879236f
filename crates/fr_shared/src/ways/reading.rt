//! Reads of ways.

ghost use Rattle.std.specs.Prelude.{◌≡◌, ◌<◌, ◌≤◌, ℕ, List, drop, length, take};
ghost use Rattle.fr_shared.specs.Reading.{HasRead};
ghost use Rattle.fr_shared.specs.WayTables.{IsChosen, way_codec, ways_of};

use crate::reader::Reader;
use crate::ways::words::{MOST, copy_ways, count_in, way_in};
use std::collections::LinkedList;

impl Reader<LinkedList<u32>> {
    /// Writes the ways of node `x`, which must be in the table, to the front of `list`. They are in the order in
    /// which they were pushed. Returns how many they are; the rest of the list is unchanged. The ways are all of one
    /// moment: those in the last table of a history that extends what the reader knew. No table of this history has a
    /// cycle. Two calls can read different tables.
    ///
    /// It makes one load, and does not allocate or wait. O(1).
    pub fn ways(&mut self, x: u32, list: &mut [u32; MOST]) -> usize
        requires { x < self.old.nodes }
        // The ways are those in the last table that the reader then knows, read by one load. The reader's tables
        // continue what it knew before, and none has a cycle.
        ensures ways { HasRead way_codec self.old self.new x (take result list.new) }
        ensures few { result ≤ 5 }
        ensures rest { drop result list.new ≡ drop result list.old }
    {
        let word = self.word(x);
        copy_ways(word, list)
    }

    /// Returns one of the ways of node `x`, which must be in the table: the one that `choice`, such as a hash of a
    /// packet's flow, chooses. It is the way at the place `choice` modulo the number of ways. `None` if the node has no
    /// way. The ways are those that [`ways`](Reader::ways) would write.
    ///
    /// It makes one load, and does not allocate or wait. O(1).
    pub fn way(&mut self, x: u32, choice: u32) -> Option<u32>
        requires { x < self.old.nodes }
        // It is the way at the index `choice` modulo the number of first ways, of those that `Reader::ways` would
        // read.
        ensures { (ys : List ℕ) × HasRead way_codec self.old self.new x ys × IsChosen ys choice result }
    {
        let word = self.word(x);
        let count = count_in(word);
        if count == 0 {
            return None;
        }
        Some(way_in(word, choice as usize % count))
    }

    /// The word that holds the ways of node `x`.
    ///
    /// It makes one load. O(1).
    fn word(&mut self, x: u32) -> u64
        requires { x < self.old.nodes }
        ensures ways { HasRead way_codec self.old self.new x (ways_of result) }
        ensures few { length (ways_of result) ≤ 5 }
    {
        let word = self.load(x);
        self.history_law();
        word
    }
}
