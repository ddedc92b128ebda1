//! What is told of the committed transactions, made as it is given: nothing is kept behind its bytes.
ghost use Rattle.std.specs.Prelude.{◌≡◌, ◌++◌, ◌<◌, ◌≤◌, [], ℕ, List, None, IfOk, IsFalse, IsTrue, length};
ghost use Rattle.si_audit.specs.Giving.{CanFill, CanGive, IsLeft, IsLeftOf, IsTextOf, left_of, rows_left};
ghost use Rattle.si_audit.specs.Sheet.{text_on};

use crate::sheet::{ROOM, Sheet};
use crate::told::Told;
use sia_events::NoMemory;
use sia_index::ordering::Sorter;
use std::alloc::Global;

/// A stretch of the transactions.
#[derive(Drop)]
pub(crate) struct Stretch<R> {
    /// The rows of the transaction before the next one, and the first of them that is yet to be put on the sheet.
    pub(crate) rows: Vec<R>,
    pub(crate) row: usize,
    pub(crate) sorter: Sorter<R>,
    /// The next transaction, and the one before which the stretch ends.
    pub(crate) next: u32,
    pub(crate) end: u32,
}

impl<R: Copy + Ord + Drop> Stretch<R> {
    /// Puts what comes next on the sheet, as far as it has room.
    fn fill<T: Told<Row = R>>(&mut self, told: &T, sheet: &mut Sheet)
        requires ready { T.is_ready told.now }
        requires can { CanFill (T.count told.now) (T.most told.now) self.old }
        ensures can { CanFill (T.count told.now) (T.most told.now) self.new }
        ensures left { (text : List ℕ) → IsLeft (T.tells told.now) (T.text told.now) self.old text → (rest : List ℕ)
            × (text ≡ text_on sheet.new ++ rest) × IsLeft (T.tells told.now) (T.text told.now) self.new rest }
        ensures end { sheet.new.end ≡ 0 → (text : List ℕ)
            → IsLeft (T.tells told.now) (T.text told.now) self.new text → text ≡ [] }
        ensures most { rows_left self.new ≤ rows_left self.old }
        ensures fewer { 0 < sheet.new.end → rows_left self.new < rows_left self.old }
        ensures size { length sheet.new.bytes.items ≡ length sheet.old.bytes.items }
    {
        sheet.end = 0;
        'filling: while sheet.end + ROOM <= sheet.bytes.len() {
            if self.row < self.rows.len() {
                let number = self.next.saturating_sub(1);
                self.row = told.put_rows(number, &self.rows, self.row, sheet);
            } else if self.next < self.end {
                told.put_of(self.next, &mut self.rows, &mut self.sorter);
                self.row = 0;
                self.next += 1;
            } else {
                break;
            }
        }
    }
}

/// What gives the text of all transactions, one after another.
#[derive(Drop)]
pub(crate) struct Giving<T, R> {
    pub(crate) told: T,
    pub(crate) stretch: Stretch<R>,
}

impl<R: Copy + Ord + Drop, T: Told<Row = R> + Drop> Giving<T, R> {
    /// All is yet to be given. Takes all the memory that it needs.
    pub(crate) fn of(alloc: Global, told: T) -> Result<Giving<T, R>, NoMemory>
        requires { T.is_ready told }
        ensures told { IfOk result (λ giving. giving.told ≡ told) }
        ensures can { IfOk result (λ giving. CanFill (T.count told) (T.most told) giving.stretch) }
        ensures all { IfOk result (λ giving. (text : List ℕ) → IsTextOf (T.tells told) 0 (T.count told) text
            → IsLeft (T.tells told) (T.text told) giving.stretch text) }
    {
        let most = told.most_rows();
        let stretch = Stretch {
            rows: Vec::with_capacity(alloc, most)?,
            row: 0,
            sorter: Sorter::with_capacity(alloc, most)?,
            next: 0,
            end: told.count(),
        };
        Ok(Giving { told, stretch })
    }
}

/// Puts what is told next on the sheet, if it is told, and answers whether there was any. Where there was none it is let go, and the
/// sheet is empty. Takes no memory.
pub(crate) fn give_told<R: Copy + Ord + Drop, T: Told<Row = R> + Drop>(
    giving: &mut Option<Giving<T, R>>,
    sheet: &mut Sheet,
) -> bool
    requires can { CanGive T.is_ready T.count T.most giving.old }
    ensures can { CanGive T.is_ready T.count T.most giving.new }
    ensures gives { (text : List ℕ) → IsLeftOf T.tells T.text giving.old text → (rest : List ℕ)
        × (text ≡ text_on sheet.new ++ rest) × IsLeftOf T.tells T.text giving.new rest }
    ensures end { IsFalse result → (giving.new ≡ None) × (sheet.new.end ≡ 0) }
    ensures fewer { IsTrue result → left_of giving.new < left_of giving.old }
    ensures some { IsTrue result → 0 < sheet.new.end }
{
    if let Some(some) = &mut *giving {
        some.stretch.fill(&some.told, sheet);
        if sheet.end > 0 {
            return true;
        }
    }
    *giving = None;
    sheet.end = 0;
    false
}
