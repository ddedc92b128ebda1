//! The positions of versions, and what stands next to one.
ghost use Rattle.std.specs.Prelude.{◌≡◌, ◌<◌, ◌≤◌, ◌+◌, ◌-◌, ℕ, MatchOption, ◌↔◌, IsTrue, length};
ghost use Rattle.sia_events.specs.Numbering.{names_of, keys_of, writes_of, key_at, write_at};
ghost use Rattle.sia_events.specs.Lists.{ListsAscending};
ghost use Rattle.sia_events.specs.NarrowDependencies.{IsNextVersion};
ghost use Rattle.sia_events.specs.Transactions.{IsCommitted, Wrote};
ghost use Rattle.sia_index.specs.Info.{IsKeyAt, HasKeyAt};
ghost use Rattle.sia_index.specs.Numbers.{IsCommittedAt};
ghost use Rattle.sia_index.specs.declared.info.KeyVersion.{KeyVersion};
ghost use Rattle.sia_index.specs.Positions.{AreMakersBehind, ArePositions, HasPosition, IsCommitBehind, HasVersionUpTo, IsAtPosition, IsNewestAsOf, NoneBehind};

use crate::index::Index;
use crate::info::{Made, WriteAt};
use crate::keyed::{ByPlace, place_above};
use crate::minima::next_below;
use crate::writes::Written;

impl Index {
    /// The number of the log's key among the written ones, if it is written.
    pub fn written_number(&self, key: u32) -> Option<u32>
        requires { key < length (keys_of self.now) }
        ensures { MatchOption result ((t : ℕ) → ¬ Wrote self.now t (key_at (names_of self.now) key))
            (λ i. IsKeyAt self.now i (key_at (names_of self.now) key)) }
    {
        let number = self.keys.numbers[key as usize];
        ((number as usize) < self.keys.keys.len()).then_some(number)
    }

    /// What the log's write made: the number of its key, and the position of its version.
    pub fn write_at(&self, write: u32) -> WriteAt
        requires above { 0 < write }
        requires bound { write ≤ length (writes_of self.now) }
        ensures key { IsKeyAt self.now result.key (write_at (names_of self.now) (write - 1)).0 }
        ensures position { MatchOption result.position
            (¬ IsCommitted self.now (write_at (names_of self.now) (write - 1)).1)
            (λ q. (v : KeyVersion) × IsAtPosition self.now q v
            × (v.key ≡ (write_at (names_of self.now) (write - 1)).0)
            × (v.txn ≡ (write_at (names_of self.now) (write - 1)).1) × (0 < v.commit)) }
    {
        let Written { key, position } = self.versions.writes[write as usize - 1];
        let position = ((position as usize) < self.versions.made.len()).then_some(position);
        WriteAt { key, position }
    }

    /// How many positions there are.
    pub fn position_count(&self) -> u32
        ensures { ArePositions self.now result }
    {
        self.versions.made.len() as u32
    }

    /// The position of version 0 of written key number `i`.
    pub fn first_position(&self, i: u32) -> u32
        requires { HasKeyAt self.now i }
        ensures { (v : KeyVersion) × IsAtPosition self.now result v × IsKeyAt self.now i v.key
            × (v.commit ≡ 0) }
    {
        self.versions.firsts[i as usize]
    }

    /// The number of the key of the version at the position.
    pub fn key_at(&self, position: u32) -> u32
        requires { HasPosition self.now position }
        ensures { (v : KeyVersion) → IsAtPosition self.now position v → IsKeyAt self.now result v.key }
    {
        self.versions.keys[position as usize]
    }

    /// When the version at the position was committed: 0 for version 0.
    pub fn commit_at(&self, position: u32) -> u32
        requires { HasPosition self.now position }
        ensures { (v : KeyVersion) → IsAtPosition self.now position v → result ≡ v.commit }
    {
        self.versions.made[position as usize].commit
    }

    /// The number, among the committed transactions, of who made the version at the position. Nobody made version 0.
    pub fn maker_at(&self, position: u32) -> Option<u32>
        requires { HasPosition self.now position }
        ensures { (v : KeyVersion) → IsAtPosition self.now position v
            → MatchOption result (v.commit ≡ 0) (λ i. (0 < v.commit) × IsCommittedAt self.now i v.txn) }
    {
        let maker = self.versions.makers[position as usize];
        ((maker as usize) < self.txns.committed.len()).then_some(maker)
    }

    /// The numbers, among the committed transactions, of who made the versions of the same key behind the position, in order.
    pub fn makers_behind(&self, position: u32) -> &[u32]
        requires { HasPosition self.now position }
        ensures makers { (v : KeyVersion) → IsAtPosition self.now position v
            → AreMakersBehind self.now position v result.now }
        ensures few { position + length result.now < 4294967295 }
    {
        let (_, end) = self.group(self.key_at(position) as usize);
        &self.versions.makers[position as usize + 1..end]
    }

    /// When the version behind the position was committed: 0 where that is another key's version 0, or there is none.
    fn commit_behind(&self, position: u32) -> u32
        requires { HasPosition self.now position }
        ensures { (v : KeyVersion) → IsAtPosition self.now position v
            → IsCommitBehind self.now position v result }
    {
        match self.versions.made.get(position as usize + 1) {
            Some(next) => next.commit,
            None => 0,
        }
    }

    /// The position of the next version of the same key, if there is one.
    pub fn next_position(&self, position: u32) -> Option<u32>
        requires { HasPosition self.now position }
        ensures { (v : KeyVersion) → IsAtPosition self.now position v
            → MatchOption result (NoneBehind self.now v.key v.commit)
            (λ q. (w : KeyVersion) × IsAtPosition self.now q w × (w.key ≡ v.key) × (0 < w.commit)
            × IsNextVersion self.now v.key v.commit w.txn × (position < q)) }
    {
        let _ = &self.of;
        if self.commit_behind(position) == 0 {
            return None;
        }
        Some(position + 1)
    }

    /// The position of the version of the same key before this one, version 0 among them, if there is one.
    pub fn position_before(&self, position: u32) -> Option<u32>
        requires { HasPosition self.now position }
        ensures { (v : KeyVersion) → IsAtPosition self.now position v → MatchOption result (v.commit ≡ 0)
            (λ q. (w : KeyVersion) × IsAtPosition self.now q w × (w.key ≡ v.key) × (w.commit < v.commit)
            × IsNextVersion self.now v.key w.commit v.txn × (q < position)) }
    {
        let _ = &self.of;
        if self.commit_at(position) == 0 {
            return None;
        }
        Some(position - 1)
    }

    /// Whether the version at the position is the newest of its key as of the place: two looks, and no search.
    pub fn is_newest(&self, position: u32, place: u32) -> bool
        requires { HasPosition self.now position }
        ensures { (v : KeyVersion) → IsAtPosition self.now position v
            → IsTrue result ↔ IsNewestAsOf self.now place v }
    {
        let _ = &self.of;
        if self.commit_at(position) > place {
            return false;
        }
        place <= self.commit_behind(position).wrapping_sub(1)
    }

    /// The position of the newest version of written key number `i` as of the place, by a search.
    pub fn position_as_of(&self, i: u32, place: u32) -> u32
        requires { HasKeyAt self.now i }
        ensures { (v : KeyVersion) × IsAtPosition self.now result v × IsKeyAt self.now i v.key
            × IsNewestAsOf self.now place v }
    {
        let _ = &self.of;
        let (from, _) = self.group(i as usize);
        let versions = self.versions_at(i as usize);
        (from + place_above::<Made, ByPlace>(versions, u64::from(place))) as u32
    }

    /// The positions of the versions that number `t` of the committed transactions made, ascending.
    pub fn made_by(&self, t: usize) -> &[u32]
        requires { (u : ℕ) × IsCommittedAt self.now t u }
        ensures { (u : ℕ) → IsCommittedAt self.now t u
            → ListsAscending (λ q. (v : KeyVersion) × IsAtPosition self.now q v × (0 < v.commit)
            × (v.txn ≡ u)) result.now }
    {
        self.versions.made_by.at(t)
    }

    /// Of the written keys from number `from` to before number `to` the least with a version that is committed up to the place. `to` is at most the number of written keys.
    pub fn next_visible(&self, from: u32, to: u32, place: u32) -> Option<u32>
        requires { (i : ℕ) → i < to → HasKeyAt self.now i }
        ensures { MatchOption result ((i k : ℕ) → from ≤ i → i < to → IsKeyAt self.now i k
            → ¬ HasVersionUpTo self.now k place)
            (λ j. (from ≤ j) × (j < to) × ((i k : ℕ) → from ≤ i → i < j → IsKeyAt self.now i k
            → ¬ HasVersionUpTo self.now k place)
            × ((k : ℕ) → IsKeyAt self.now j k → HasVersionUpTo self.now k place)) }
    {
        let commits = &self.versions.first_commits;
        let found = next_below::<u32, ByPlace>(
            commits,
            &self.versions.minima,
            from as usize,
            to as usize,
            u64::from(place),
        )?;
        Some(found as u32)
    }
}
