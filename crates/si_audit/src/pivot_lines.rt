//! The lines of all pivots, one after another.
ghost use Rattle.std.specs.Prelude.{◌≡◌, ◌<◌, ◌+◌, ◌++◌, ◌≤◌, ℕ, List, ⊤, IfOk, drop, length, slice_index, slice_index_or};
ghost use Rattle.std.proofs.Common.{ap, le_refl};
ghost use Rattle.std.proofs.lemmas.List.{drop_all};
ghost use Rattle.sia_graph.specs.Found.{most_found};
ghost use Rattle.si_audit.specs.Giving.{IsTextOf};
ghost use Rattle.si_audit.specs.PivotLines.{ArePivotLines, ArePivotsReady, IsLineOf, end_number, lead_number, rest_of, role_before, pivot_text};

use crate::answer::Found;
use crate::sheet::{ROOM, Sheet, Word, put};
use crate::spelled::Spelled;
use crate::told::Told;
use sia_events::{NoMemory, TxnId};
use sia_graph::{Neighbour, Neighbours};
use sia_index::ordering::Sorter;
use std::alloc::Global;

/// The number of the word that ends a line, behind those of the roles, and a number that no word has.
const END: u32 = 3;

const NONE: u32 = 4;

/// What the lines of pivots are made from.
#[derive(Drop)]
pub(crate) struct PivotLines<'a> {
    neighbours: Neighbours<'a>,
    spelled: &'a Spelled,
    txns: &'a [TxnId],
    count: u32,
}

impl<'a> PivotLines<'a> {
    /// Takes all the memory that they need.
    pub(crate) fn of(alloc: Global, found: &'a Found) -> Result<PivotLines<'a>, NoMemory>
        ensures ready { IfOk result ArePivotsReady }
        ensures all { IfOk result (λ lines. (text : List ℕ) → ArePivotLines found.now text
            → IsTextOf (IsLineOf lines.neighbours.evidence.index.now) 0 lines.count text) }
    {
        let index = &found.index;
        index.law();
        let txns = index.committed();
        Ok(PivotLines {
            neighbours: Neighbours::of(alloc, index, &found.ordered)?,
            spelled: &found.spelled,
            txns,
            count: txns.len() as u32,
        })
    }
}

impl Told for PivotLines<'_> {
    type Row = Neighbour;

    ghost is_ready = { ArePivotsReady };

    ghost count = { λ lines. lines.count };

    ghost most = { λ lines. most_found lines.neighbours };

    ghost tells = { λ lines. IsLineOf lines.neighbours.evidence.index.now };

    ghost text = { pivot_text };

    ghost ends = { λ lines number rows. ap
        (rest_of (slice_index lines.txns.now number) lines.spelled.now.txns.items (role_before rows (length rows)))
        (drop_all (length rows) rows (le_refl (length rows))) };

    fn count(&self) -> u32 {
        self.count
    }

    fn most_rows(&self) -> usize {
        self.neighbours.most_rows()
    }

    fn put_of(&self, number: u32, rows: &mut Vec<Neighbour>, sorter: &mut Sorter<Neighbour>) {
        self.neighbours.put_of(number, rows, sorter);
    }

    fn put_rows(&self, number: u32, rows: &[Neighbour], row: usize, sheet: &mut Sheet) -> usize {
        let pivot = u64::from(self.txns.get(number as usize).copied().unwrap_or(0));
        let words = [
            Word::<24>::of(b"pivot ", pivot, b" in"),
            Word::new(b" out"),
            Word::new(b" first"),
            Word::new(b"\n"),
        ];
        let txns = &*self.spelled.txns;
        let bytes = &mut *sheet.bytes;
        let mut end = sheet.end;
        let mut row = row;
        'putting: while row < rows.len() && end + ROOM <= bytes.len() {
            end = put(&words, lead(rows, row), bytes, end);
            end = put(txns, rows[row].txn, bytes, end);
            row += 1;
            end = put(&words, tail(rows, row), bytes, end);
        }
        sheet.end = end;
        row
    }
}

/// The number of the word before a row's: that of its role, where it begins.
fn lead(rows: &[Neighbour], row: usize) -> u32
    requires { row < length rows.now }
    ensures { (d : Neighbour) → result ≡ lead_number (role_before rows.now row)
        (slice_index_or rows.now row d).role }
{
    let role = rows[row].role as u32;
    if row == 0 {
        return role;
    }
    if rows[row - 1].role as u32 == role {
        return NONE;
    }
    role
}

/// The number of the word behind the rows before this one: the end of the line, if these are all.
fn tail(rows: &[Neighbour], row: usize) -> u32
    ensures { result ≡ end_number (drop row rows.now) }
{
    if row < rows.len() { NONE } else { END }
}
