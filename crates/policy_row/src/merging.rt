// Puts an override over a policy.

ghost use Rattle.std.specs.Prelude.{◌≡◌, IfOk, OnOk, IsTrue};
ghost use Rattle.std.specs.Option.{ForSome, option_copied};
ghost use Rattle.policy_row.specs.Merging.{merged_row, over_row, rows_over, merged_rows};
ghost use Rattle.policy_row.specs.Rows.{at_name, with_entry, is_kept};

use crate::entries::{copy_entries, merge_entries};
use crate::grade::Kind;
use crate::policy::Policy;
use crate::row::Row;
use lava_base::memory::OutOfMemory;
use std::alloc::Global;

/// The policy that grants, of each package and kind, what the override says of an entry, and where it says nothing what the policy says.
pub fn merge(alloc: Global, policy: &Policy, over: &Policy) -> Result<Policy, OutOfMemory>
    ensures { IfOk result (λ merged. merged ≡ merged_rows policy.now over.now) }
{
    let mut merged = Policy::new(alloc);
    put_over(alloc, &mut merged, policy)?;
    put_over(alloc, &mut merged, over)?;
    Ok(merged)
}

/// Puts each row over the one that stands there.
fn put_over(alloc: Global, policy: &mut Policy, over: &Policy) -> Result<(), OutOfMemory>
    ensures { OnOk result (policy.new ≡ rows_over policy.old over.now) }
{
    for (name, row) in over.rows.iter() {
        put_row_over(alloc, policy, name.as_str(), row)?;
    }
    Ok(())
}

/// Puts a row over the one that stands there, if one does.
fn put_row_over(
    alloc: Global,
    policy: &mut Policy,
    name: &str,
    row: &Row,
) -> Result<(), OutOfMemory>
    requires { IsTrue (is_kept row.now) }
    ensures { let row = over_row (at_name name.now policy.old) row.now in
        OnOk result (policy.new ≡ with_entry policy.old name.now row) }
{
    let row = row_over(alloc, policy.row_named(name), row)?;
    policy.put(alloc, name, row)
}

/// The override's row over the policy's, if it has one.
fn row_over(alloc: Global, under: Option<&Row>, over: &Row) -> Result<Row, OutOfMemory>
    requires under { ForSome under (λ row. IsTrue (is_kept row.now)) }
    requires over { IsTrue (is_kept over.now) }
    ensures row { IfOk result (λ row. row ≡ over_row (option_copied under.entry) over.now) }
    ensures kept { IfOk result (λ row. IsTrue (is_kept row)) }
{
    match under {
        None => copy_row(alloc, over),
        Some(under) => merge_rows(alloc, under, over),
    }
}

/// The same row once more.
pub fn copy_row(alloc: Global, row: &Row) -> Result<Row, OutOfMemory>
    ensures { IfOk result (λ copy. copy ≡ row.now) }
{
    Ok(Row {
        globals: copy_entries(alloc, &row.globals)?,
        builtin: copy_entries(alloc, &row.builtin)?,
        packages: copy_entries(alloc, &row.packages)?,
    })
}

/// The override's row over the policy's.
fn merge_rows(alloc: Global, under: &Row, over: &Row) -> Result<Row, OutOfMemory>
    requires under { IsTrue (is_kept under.now) }
    requires over { IsTrue (is_kept over.now) }
    ensures row { IfOk result (λ row. row ≡ merged_row under.now over.now) }
    ensures kept { IfOk result (λ row. IsTrue (is_kept row)) }
{
    Ok(Row {
        globals: merge_entries(alloc, Kind::Globals, &under.globals, &over.globals)?,
        builtin: merge_entries(alloc, Kind::Builtin, &under.builtin, &over.builtin)?,
        packages: merge_entries(alloc, Kind::Packages, &under.packages, &over.packages)?,
    })
}
