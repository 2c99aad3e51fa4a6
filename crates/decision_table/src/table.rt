//! A decision table, and the row that decides a request.
ghost use Rattle.std.specs.Prelude.{◌≡◌, ◌≤◌, ◌↔◌, None, Some, length, IsTrue};
ghost use Rattle.std.specs.List.{find};
ghost use Rattle.std.specs.Option.{option_map};
ghost use Rattle.issuer_base.specs.ChipData.{amount_value};
ghost use Rattle.decision_table.specs.Fitting.{fits, decision, IsDecision};
ghost use Rattle.decision_table.specs.Tables.{may_stand, first_bad_row, is_table, table_from};

use crate::row::{TableRow, fits, takes_all, tells_approval};
use arrayvec::ArrayVec;
use issuer_base::{MAX_TABLE_ROWS, Request};
use std::marker::Model;

/// The rows by which an issuer decides: the first one that matches a request decides it, and the last one
/// matches every request.
///
/// A contract sees the list of its rows.
#[derive(Drop)]
pub struct Table {
    kept: ArrayVec<TableRow, MAX_TABLE_ROWS>,
}

impl Model for Table {
    ghost use Rattle.std.specs.Prelude.{List, IsTrue};
    ghost use Rattle.decision_table.specs.declared.row.TableRow.{TableRow};
    ghost use Rattle.decision_table.specs.Tables.{is_table};

    ghost Value = { List TableRow };

    ghost view = { λ table. table.kept.items };

    ghost invariant = { λ table. IsTrue (is_table table.kept.items) };

    ghost inverse = { λ rows. record { kept = record { items = rows } } };
}

impl Table {
    /// The table of these rows. Byte 2 bit 8 of each row's card status update has to be its approval. The
    /// last row has to have zero masks and values, amounts from 0 to 999,999,999,999 and no status. `None`
    /// otherwise, and if there is no row.
    #[tactic(auto, unfolding(crate::specs::Tables::table_from))]
    pub fn new(rows: ArrayVec<TableRow, MAX_TABLE_ROWS>) -> Option<Table>
        ensures { result ≡ table_from rows.items }
    {
        if is_table(rows.as_slice()) {
            Some(Table { kept: rows })
        } else {
            None
        }
    }

    /// The rows, the first one first.
    pub fn rows(&self) -> &[TableRow]
        ensures same { result.now ≡ self.now }
        ensures valid { IsTrue (is_table self.now) }
    {
        self.kept.as_slice()
    }
}

/// The row that decides a request of a card with this status: the first one that matches.
pub fn decide<'a>(table: &'a Table, status: u8, request: &Request) -> &'a TableRow
    ensures exact { decision table.now status request.now ≡ Some result.now }
    ensures first { IsDecision table.now status request.now result.now }
{
    find_row(
        table.kept.as_slice(),
        status,
        request,
        request.amount_value(),
    )
    .unwrap()
}

/// The index of the first invalid row: its card status update doesn't have its approval, or it is the last
/// one and isn't the last row that `Table::new` requires. Rows are a table if there is one and this is
/// `None`.
pub fn first_bad_row(rows: &[TableRow]) -> Option<usize>
    ensures exact { result ≡ first_bad_row rows.now }
    ensures table { IsTrue (is_table rows.now) ↔ ((1 ≤ length rows.now) × (result ≡ None)) }
{
    for (index, row) in rows.iter().enumerate() {
        if !may_stand(row, &rows[index + 1..]) {
            return Some(index);
        }
    }
    None
}

fn is_table(rows: &[TableRow]) -> bool
    ensures { result ≡ is_table rows.now }
{
    !rows.is_empty() && first_bad_row(rows).is_none()
}

/// Whether a row is valid before these rows.
#[tactic(auto, unfolding(crate::specs::Tables::may_stand))]
fn may_stand(row: &TableRow, after: &[TableRow]) -> bool
    ensures { result ≡ may_stand row.now after.now }
{
    tells_approval(row) && (!after.is_empty() || takes_all(row))
}

/// The first row that matches a card of this status and this request, whose amount is also given.
fn find_row<'a>(
    rows: &'a [TableRow],
    status: u8,
    request: &Request,
    amount: u64,
) -> Option<&'a TableRow>
    requires { amount ≡ amount_value request.now }
    ensures { option_map (λ row. row.now) result ≡ find (fits status request.now) rows.now }
{
    rows.iter().find(|row| fits(row, status, request, amount))
}
