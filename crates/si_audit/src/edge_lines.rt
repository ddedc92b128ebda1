//! The lines of all edges, source by source.
ghost use Rattle.std.specs.Prelude.{◌≡◌, ◌+◌, ◌++◌, ◌≤◌, ℕ, List, ⊤, length};
ghost use Rattle.std.proofs.Common.{ap, flat_map, le_refl};
ghost use Rattle.std.proofs.lemmas.List.{drop_all};
ghost use Rattle.sia_parts.specs.EdgeRows.{row_bound};
ghost use Rattle.si_audit.specs.EdgeLines.{AreEdgeLines, AreReady, AreLinesFrom, row_line, row_text};
ghost use Rattle.si_audit.specs.Giving.{IsTextOf};

use crate::answer::Found;
use crate::sheet::{ROOM, Sheet, Word, put};
use crate::spelled::Spelled;
use crate::told::Told;
use sia_index::ordering::Sorter;
use sia_parts::{EdgeTo, Edges};

/// What the lines of edges are made from.
#[derive(Drop)]
pub(crate) struct EdgeLines<'a> {
    edges: Edges<'a>,
    spelled: &'a Spelled,
    count: u32,
}

impl<'a> EdgeLines<'a> {
    pub(crate) fn of(found: &'a Found) -> EdgeLines<'a>
        ensures ready { AreReady result }
        ensures all { (text : List ℕ) → AreEdgeLines found.now text
            → IsTextOf (AreLinesFrom result.edges.index.now) 0 result.count text }
    {
        let index = &found.index;
        index.law();
        EdgeLines {
            edges: Edges::of(index, &found.ordered, None),
            spelled: &found.spelled,
            count: index.committed().len() as u32,
        }
    }
}

impl Told for EdgeLines<'_> {
    type Row = EdgeTo;

    ghost is_ready = { AreReady };

    ghost count = { λ lines. lines.count };

    ghost most = { λ lines. row_bound lines.edges };

    ghost tells = { λ lines. AreLinesFrom lines.edges.index.now };

    ghost text = { row_text };

    ghost ends = { λ lines number rows. ap (flat_map (row_line lines.spelled.now number))
        (drop_all (length rows) rows (le_refl (length rows))) };

    fn count(&self) -> u32 {
        self.count
    }

    fn most_rows(&self) -> usize {
        self.edges.most_rows()
    }

    fn put_of(&self, number: u32, rows: &mut Vec<EdgeTo>, sorter: &mut Sorter<EdgeTo>) {
        self.edges.put_from(number, rows, sorter);
    }

    fn put_rows(&self, number: u32, rows: &[EdgeTo], row: usize, sheet: &mut Sheet) -> usize {
        let edge = Word::<8>::new(b"edge");
        let kinds: [Word<4>; 3] = [Word::new(b" ww"), Word::new(b" wr"), Word::new(b" rw")];
        let (txns, keys) = (&*self.spelled.txns, &*self.spelled.keys);
        let bytes = &mut *sheet.bytes;
        let mut end = sheet.end;
        let mut row = row;
        'putting: while row < rows.len() && end + ROOM <= bytes.len() {
            let to = &rows[row];
            end = edge.put(bytes, end);
            end = put(txns, number, bytes, end);
            end = put(&kinds, to.kind as u32, bytes, end);
            end = put(txns, to.target, bytes, end);
            end = put(keys, to.key, bytes, end);
            row += 1;
        }
        sheet.end = end;
        row
    }
}
