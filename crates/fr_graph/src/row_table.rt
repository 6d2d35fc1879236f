//! Rows of neighbours, one for each node, in one list. There is room after each row, so a row grows and shrinks in
//! place and no other row moves.

ghost use Rattle.std.specs.Prelude.{◌≡◌, ℕ, ◌<◌, ◌≤◌, ◌+◌, ◌-◌, ◌==◌, ◌++◌, [], ◌∷◌, length, map};
ghost use Rattle.std.specs.Prelude.{take, drop, replicate, slice_index, slice_range, insert};
ghost use Rattle.std.specs.Prelude.{remove, count_by, IfOk, OnOk, OnErr, IsTrue, All, Contains};
ghost use Rattle.std.specs.List.{range_with_len};
ghost use Rattle.std.specs.List.Sorted.{IsStrictlyIncreasing};
ghost use Rattle.fr_graph.specs.RowLists.{turned_entry};
ghost use Rattle.fr_graph.specs.Tables.{ArePacked, HasRoomIn, KeepsRooms, end_at, has_none};
ghost use Rattle.fr_graph.specs.Tables.{places_of, room_of, row_of, start_at, with_row};
ghost use Rattle.fr_graph.specs.TurnedRows.{reversed_at};
ghost use Rattle.fr_graph.specs.declared.first.First.TheVariants.{Outward};

use crate::first::First;
use crate::limits::MAX_LINKS;
use crate::row::{reverse_entry, turn_row};
use std::alloc::{AllocError, Global};
use std::marker::Model;

/// If all rows together have room for more entries than this, unneeded room is given back. It is four times as many
/// entries as a network can have.
const MOST_ROOM: usize = 8 * MAX_LINKS;

/// Where a row starts and where it ends. The two are stored side by side, so that reading a row takes one cache line
/// for both.
#[derive(Debug, Drop, Clone, Copy)]
struct Place {
    start: usize,
    end: usize,
}

/// Rows of neighbours, one for each node. The value in contracts is the rows, and how many entries each one has room
/// for.
#[derive(Debug, Drop)]
pub(crate) struct RowTable {
    // Each row is in `entries`, from its start to its end, and its room extends to the start of the next row. After the
    // places of the rows there is one more place, which starts where the room of the last row ends. Its end is not
    // used.
    places: Vec<Place>,
    entries: Vec<(u16, First)>,
    // How many rows are empty.
    empty: usize,
}

impl Model for RowTable {
    ghost use Rattle.fr_graph.specs.Tables.{Table};

    ghost Value = { Table };

    ghost use Rattle.fr_graph.specs.Tables.{table_of, IsTable};

    ghost view = { table_of };

    ghost invariant = { IsTable };
}

/// The places of rows that follow each other without gaps: each row ends where the next one starts.
fn adjacent_row_places(alloc: Global, starts: &[usize]) -> Result<Vec<Place>, AllocError>
    ensures { IfOk result (λ places. places.items ≡ places_of starts.now) }
{
    let mut places = Vec::with_capacity(alloc, starts.len())?;
    for x in 0..starts.len() {
        let end = starts.get(x + 1).copied().unwrap_or(0);
        places.push(Place {
            start: starts[x],
            end,
        })?;
    }
    Ok(places)
}

/// How many of the rows at these places are empty. The last place is not that of a row.
fn count_empty_rows(places: &[Place]) -> usize
    requires { 0 < length places.now }
    ensures { result ≡ count_by (λ x. start_at places.now x == end_at places.now x) (range_with_len 0
        (length places.now - 1)) }
{
    let mut empty = 0;
    for x in 0..places.len() - 1 {
        let place = places[x];
        empty += usize::from(place.start == place.end);
    }
    empty
}

/// Puts the entry first and moves each other entry one place on. The last entry is lost.
fn insert_at_front(entries: &mut [(u16, First)], entry: (u16, First))
    requires { 0 < length entries.old }
    ensures { entries.new ≡ take (length entries.old) (entry ∷ entries.old) }
{
    let mut carried = entry;
    for here in entries.iter_mut() {
        let next = *here;
        *here = carried;
        carried = next;
    }
}

/// Moves each entry but the first one place back. The first entry is lost, and the last place keeps its entry.
fn remove_from_front(entries: &mut [(u16, First)])
    requires { 0 < length entries.old }
    ensures one_each { length entries.new ≡ length entries.old }
    ensures rest { take (length entries.old - 1) entries.new ≡ drop 1 entries.old }
{
    for place in 1..entries.len() {
        entries[place - 1] = entries[place];
    }
}

/// Keeps the entries up to `start`, and puts the row after them, with room up to `next`.
fn write_row_behind(
    entries: &mut Vec<(u16, First)>,
    start: usize,
    next: usize,
    row: &[(u16, First)],
) -> Result<(), AllocError>
    requires inside { start ≤ length entries.old.items }
    requires room { start + length row.now ≤ next }
    ensures { OnOk result (entries.new.items
        ≡ take start entries.old.items ++ (row.now ++ replicate (next - (start + length row.now)) (0, Outward))) }
{
    entries.truncate(start);
    entries.extend_from_slice(row)?;
    entries.resize(next, (0, First::Outward))?;
    Ok(())
}

impl RowTable {
    /// A table without rows, with memory for this many rows and for this many entries in all of them together.
    fn with_capacity(alloc: Global, rows: usize, entries: usize) -> Result<RowTable, AllocError>
        ensures { IfOk result (λ table. (table.rows ≡ []) × (table.rooms ≡ [])) }
    {
        let mut places = Vec::with_capacity(alloc, rows.saturating_add(1))?;
        places.push(Place { start: 0, end: 0 })?;
        Ok(RowTable {
            places,
            entries: Vec::with_capacity(alloc, entries)?,
            empty: 0,
        })
    }

    /// The table with one more row at the end, which has room for so many entries.
    fn with_row_appended(self, row: &[(u16, First)], room: usize) -> Result<RowTable, AllocError>
        requires { length row.now ≤ room }
        ensures rows { IfOk result (λ table. table.rows ≡ self.rows ++ row.now ∷ []) }
        ensures rooms { IfOk result (λ table. table.rooms ≡ self.rooms ++ room ∷ []) }
    {
        let RowTable {
            mut places,
            mut entries,
            mut empty,
        } = self;
        let last = places.len() - 1;
        let start = places[last].start;
        let next = start.checked_add(room).ok_or(AllocError)?;
        // Entries after the room of the last row belong to no row.
        write_row_behind(&mut entries, start, next, row)?;
        places[last] = Place {
            start,
            end: start + row.len(),
        };
        places.push(Place {
            start: next,
            end: next,
        })?;
        empty += usize::from(row.is_empty());
        Ok(RowTable {
            places,
            entries,
            empty,
        })
    }

    /// The row at this place.
    fn row_at(&self, x: usize) -> &[(u16, First)]
        requires { x < length self.now.rows }
        ensures { result.now ≡ row_of self.now x }
    {
        let place = self.places[x];
        &self.entries[place.start..place.end]
    }

    /// For how many entries the row at this place has room after all rows are laid out again: an eighth more than it
    /// has, and six more, because short rows gain links as often as long ones. With `keeps_room`, never fewer than now.
    fn new_row_room(&self, x: usize, keeps_room: bool) -> usize
        requires { x < length self.now.rows }
        ensures room { length (row_of self.now x) < result }
        ensures kept { IsTrue keeps_room → room_of self.now x ≤ result }
    {
        let long = self.row_at(x).len();
        let wide = long + long / 8 + 6;
        let held = self.places[x + 1].start - self.places[x].start;
        if keeps_room { wide.max(held) } else { wide }
    }

    /// For how many entries all rows together have room after they are laid out again.
    fn new_total_room(&self, keeps_room: bool) -> usize {
        let mut whole: usize = 0;
        for x in 0..self.len() {
            whole = whole.saturating_add(self.new_row_room(x, keeps_room));
        }
        whole
    }

    /// The same rows laid out again, each with room to grow by an eighth and six more. With `keeps_room`, no row has
    /// less room than now.
    fn with_new_room(&self, alloc: Global, keeps_room: bool) -> Result<RowTable, AllocError>
        ensures rows { IfOk result (λ table. table.rows ≡ self.now.rows) }
        ensures room { IfOk result (λ table. (x : ℕ) → x < length self.now.rows → HasRoomIn table x) }
        ensures kept { IsTrue keeps_room → IfOk result (KeepsRooms self.now) }
    {
        let rows = self.places.len() - 1;
        let mut table = RowTable::with_capacity(alloc, rows, self.new_total_room(keeps_room))?;
        for x in 0..rows {
            table = table.with_row_appended(self.row_at(x), self.new_row_room(x, keeps_room))?;
        }
        Ok(table)
    }

    /// The table of rows that follow each other without gaps and have no room for more.
    pub(crate) fn packed(
        alloc: Global,
        starts: Vec<usize>,
        entries: Vec<(u16, First)>,
    ) -> Result<RowTable, AllocError>
        requires { ArePacked starts.items entries.items }
        ensures one_each { IfOk result (λ table. length table.rows + 1 ≡ length starts.items) }
        ensures rows { IfOk result (λ table. (x : ℕ) → x + 1 < length starts.items
            → row_of table x ≡ slice_range entries.items (slice_index starts.items x)
            (slice_index starts.items (x + 1))) }
    {
        let places = adjacent_row_places(alloc, &starts)?;
        let empty = count_empty_rows(&places);
        Ok(RowTable {
            places,
            entries,
            empty,
        })
    }

    /// The number of rows.
    pub(crate) fn len(&self) -> usize
        ensures { result ≡ length self.now.rows }
    {
        self.places.len() - 1
    }

    /// The row of `x`.
    pub(crate) fn row(&self, x: u32) -> &[(u16, First)]
        requires { x < length self.now.rows }
        ensures { result.now ≡ row_of self.now x }
    {
        self.row_at(x as usize)
    }

    /// The number of empty rows, in constant time.
    pub(crate) fn empty_rows(&self) -> usize
        ensures { result ≡ count_by has_none self.now.rows }
    {
        self.empty
    }

    /// The law of room: no row has more entries than it has room for. The function does nothing.
    pub(crate) fn room_law(&self)
        ensures { (x : ℕ) → length (row_of self.now x) ≤ room_of self.now x }
    {
        let _empty = self.empty;
    }

    /// A copy, with the same room in each row.
    pub(crate) fn copied(&self, alloc: Global) -> Result<RowTable, AllocError>
        ensures { IfOk result (λ copy. copy ≡ self.now) }
    {
        Ok(RowTable {
            places: self.places.to_vec(alloc)?,
            entries: self.entries.to_vec(alloc)?,
            empty: self.empty,
        })
    }

    /// Makes room for one more entry in the row of `x`. If the row is full, all rows are laid out again, each with room
    /// to grow by an eighth and six more. No row has less room afterwards, so earlier edits can still be undone.
    pub(crate) fn make_room(&mut self, alloc: Global, x: u32) -> Result<(), AllocError>
        requires { x < length self.old.rows }
        ensures rows { self.new.rows ≡ self.old.rows }
        ensures kept { KeepsRooms self.old self.new }
        ensures room { OnOk result (HasRoomIn self.new x) }
        ensures unchanged { OnErr result (self.new ≡ self.old) }
    {
        if self.places[x as usize].end == self.places[x as usize + 1].start {
            *self = self.with_new_room(alloc, true)?;
        }
        Ok(())
    }

    /// Gives back room that rows do not need, if all rows together have room for far more entries than a network can
    /// have.
    pub(crate) fn give_back_room(&mut self, alloc: Global) -> Result<(), AllocError>
        ensures rows { self.new.rows ≡ self.old.rows }
    {
        if self.entries.len() > MOST_ROOM {
            *self = self.with_new_room(alloc, false)?;
        }
        Ok(())
    }

    /// Inserts an entry before this place in the row of `x`, which must have room for it.
    pub(crate) fn insert(&mut self, x: u32, place: usize, entry: (u16, First))
        requires row { x < length self.old.rows }
        requires place { place ≤ length (row_of self.old x) }
        requires room { HasRoomIn self.old x }
        ensures { self.new ≡ with_row self.old x (insert (row_of self.old x) place entry) }
    {
        let Place { start, end } = self.places[x as usize];
        insert_at_front(&mut self.entries[start + place..end + 1], entry);
        self.places[x as usize] = Place {
            start,
            end: end + 1,
        };
        self.empty -= usize::from(start == end);
    }

    /// Removes the entry at this place from the row of `x`.
    pub(crate) fn remove(&mut self, x: u32, place: usize)
        requires row { x < length self.old.rows }
        requires place { place < length (row_of self.old x) }
        ensures { self.new ≡ with_row self.old x (remove (row_of self.old x) place) }
    {
        let Place { start, end } = self.places[x as usize];
        remove_from_front(&mut self.entries[start + place..end]);
        let end = end - 1;
        self.places[x as usize] = Place { start, end };
        self.empty += usize::from(start == end);
    }

    /// Turns each link of the row of `x` as the counts say.
    pub(crate) fn turn_row(&mut self, x: u32, counts: &[u64])
        requires row { x < length self.old.rows }
        requires node { x < length counts.now }
        requires below { All (λ (e : ℕ × First). e.0 < length counts.now) (row_of self.old x) }
        ensures { self.new ≡ with_row self.old x (map (turned_entry counts.now x) (row_of self.old x)) }
    {
        let place = self.places[x as usize];
        turn_row(&mut self.entries[place.start..place.end], x, counts);
    }

    /// Reverses the entry of `w` in the row of `x`. There must be one.
    pub(crate) fn reverse_entry(&mut self, x: u32, w: u32)
        requires row { x < length self.old.rows }
        requires rising { IsStrictlyIncreasing (map (λ (e : ℕ × First). e.0) (row_of self.old x)) }
        requires stands { Contains (map (λ (e : ℕ × First). e.0) (row_of self.old x)) w }
        ensures { self.new ≡ with_row self.old x (map (reversed_at w) (row_of self.old x)) }
    {
        let place = self.places[x as usize];
        reverse_entry(&mut self.entries[place.start..place.end], w);
    }
}
