//! What is told of the committed transactions, one after another.
ghost use Rattle.std.specs.Prelude.{◌≡◌, ◌<◌, ◌≤◌, ◌+◌, ◌++◌, [], ℕ, List, length, vec_capacity};
ghost use Rattle.si_audit.specs.Sheet.{text_on};

use crate::sheet::Sheet;
use sia_index::ordering::Sorter;

/// What tells of each committed transaction, by its number, in rows that become bytes.
pub(crate) trait Told {
    /// A piece of what is told of one.
    type Row;

    /// That it can be told.
    ghost is_ready: { Self → Type 0 };

    /// How many transactions there are.
    ghost count: { Self → ℕ };

    /// How many rows one has at most.
    ghost most: { Self → ℕ };

    /// The text of the transaction with this number.
    ghost tells: { Self → ℕ → List ℕ → Type 0 };

    /// The text of its rows from this one on.
    ghost text: { Self → ℕ → List Self.Row → ℕ → List ℕ };

    /// Behind the last row there is none.
    ghost ends: { (told : Self) (number : ℕ) (rows : List Self.Row) → text told number rows (length rows) ≡ [] };

    fn count(&self) -> u32
        ensures { result ≡ count self.now };

    fn most_rows(&self) -> usize
        requires { is_ready self.now }
        ensures { result ≡ most self.now };

    /// Puts the rows of a transaction into the list, which has room for them, in place of what it held.
    fn put_of(&self, number: u32, rows: &mut Vec<Self::Row>, sorter: &mut Sorter<Self::Row>)
        requires ready { is_ready self.now }
        requires number { number < count self.now }
        requires room { most self.now ≤ vec_capacity rows.old }
        ensures rows { (bytes : List ℕ) → tells self.now number bytes
            → text self.now number rows.new.items 0 ≡ bytes }
        ensures room { vec_capacity rows.new ≡ vec_capacity rows.old };

    /// Puts the text of rows, from one on, as many as the sheet has room for. Answers the row behind them.
    fn put_rows(&self, number: u32, rows: &[Self::Row], row: usize, sheet: &mut Sheet) -> usize
        requires { row ≤ length rows.now }
        ensures text { (piece : List ℕ) × (text_on sheet.new ≡ text_on sheet.old ++ piece)
            × (text self.now number rows.now row ≡ piece ++ text self.now number rows.now result) }
        ensures size { length sheet.new.bytes.items ≡ length sheet.old.bytes.items }
        ensures within { (row ≤ result) × (result ≤ length rows.now) }
        ensures some { row < length rows.now → sheet.old.end + 72 ≤ length sheet.old.bytes.items
            → row < result };
}
