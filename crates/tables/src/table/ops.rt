// What a table does.
ghost use Rattle.std.specs.Prelude.{◌≡◌, ◌+◌, ◌<◌, ◌≤◌, [], ◌∷◌, ◌++◌, length};
ghost use Rattle.std.specs.List.{remove, slice_get};
ghost use Rattle.tables.specs.Tables.{items, appended, room_for, without};

use super::{Full, Table};

impl<T: Copy, const N: usize> Table<T, N> {
    // An empty table; `fill` stands in the slots that are not used.
    pub fn new(fill: T) -> Self
        ensures empty { items result ≡ [] }
    {
        Table {
            slots: [fill; N],
            len: 0,
        }
    }

    pub fn len(&self) -> usize
        ensures length { result ≡ length (items self.now) }
    {
        self.as_slice().len()
    }

    pub fn as_slice(&self) -> &[T]
        ensures entries { result.now ≡ items self.now }
    {
        let all = &self.slots[..];
        &all[0..self.len]
    }

    pub fn get(&self, place: usize) -> Option<T>
        ensures entry { result ≡ slice_get (items self.now) place }
    {
        self.as_slice().get(place).copied()
    }

    fn place_last(&mut self, entry: T)
        requires room { length (items self.old) < N }
        ensures placed { items self.new ≡ items self.old ++ entry ∷ [] }
    {
        self.slots[self.len] = entry;
        self.len += 1;
    }

    fn place_all(&mut self, entries: &[T])
        requires room { length (items self.old) + length entries.now ≤ N }
        ensures placed { items self.new ≡ items self.old ++ entries.now }
    {
        for entry in entries {
            self.place_last(*entry);
        }
    }

    // Places an entry last.
    pub fn push(&mut self, entry: T) -> Result<(), Full>
        ensures room { result ≡ room_for N (items self.old) (entry ∷ []) }
        ensures placed { items self.new ≡ appended N (items self.old) (entry ∷ []) }
    {
        if self.len >= N {
            return Err(Full);
        }
        self.place_last(entry);
        Ok(())
    }

    // Places all the entries behind those that are there, or none where they have no room.
    pub fn extend(&mut self, entries: &[T]) -> Result<(), Full>
        ensures room { result ≡ room_for N (items self.old) entries.now }
        ensures placed { items self.new ≡ appended N (items self.old) entries.now }
    {
        if entries.len() > N - self.len {
            return Err(Full);
        }
        self.place_all(entries);
        Ok(())
    }

    fn take_out(&mut self, place: usize)
        requires within { place < length (items self.old) }
        ensures taken { items self.new ≡ remove (items self.old) place }
    {
        let mut rest: Table<T, N> = Table::new(self.slots[place]);
        let all = self.as_slice();
        rest.place_all(&all[0..place]);
        rest.place_all(&all[place + 1..all.len()]);
        *self = rest;
    }

    // Takes the entry at a place out, if there is one; those behind it move up.
    pub fn remove(&mut self, place: usize) -> Option<T>
        ensures entry { result ≡ slice_get (items self.old) place }
        ensures taken { items self.new ≡ without (items self.old) place }
    {
        let entry = self.get(place);
        if place < self.len() {
            self.take_out(place);
        }
        entry
    }

    pub fn clear(&mut self)
        ensures empty { items self.new ≡ [] }
    {
        self.len = 0;
    }
}
