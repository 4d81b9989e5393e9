//! A table at the edges of what it may hold.
ghost use Rattle.std.specs.Prelude.{◌∷◌, ◌≡◌, IfOk, [], pos};
ghost use Rattle.cq_values.specs.declared.value.Value.TheVariants.{Number};

use cq_model::{Cond, CondTree, ExprTree};
use cq_operators_conditions::split_unkept;
use cq_table::{Layout, Table, TableFault};
use cq_values::{ColumnDef, Comparison, Row, Seq, Text, Ty, Value};
use cq_writestore_rows::NewRows;
use std::alloc::{AllocError, Global};
use std::test::Fail;

/// A row of the number 7.
fn seven(alloc: Global) -> Result<Row, Fail>
    ensures { IfOk result (λ row. row ≡ Number (pos 7) ∷ []) }
{
    let mut row = Row::new(alloc);
    row.push(Value::Number(7))?;
    Ok(row)
}

/// The columns of a table of numbers.
fn number_column(alloc: Global) -> Result<Seq<ColumnDef>, Fail> {
    let name = Text::new(alloc, "n")?;
    let mut columns = Seq::new(alloc);
    columns.push(ColumnDef {
        name,
        ty: Ty::Integer,
        not_null: true,
    })?;
    Ok(columns)
}

#[test]
fn a_table_has_these_fields_and_no_other(rt: HostRuntime) -> Result<(), Fail> {
    let alloc = rt.alloc();
    let table = Table::new(alloc, number_column(alloc)?, Seq::new(alloc), 2);
    let Table {
        layout,
        max_rows,
        live,
        segments,
        written,
    } = &table;
    let Layout { columns, sort } = layout;
    assert!(rt; columns.len() == 1 && sort.is_empty());
    assert!(rt; *max_rows == 2 && *live == 0);
    assert!(rt; segments.is_empty() && written.len() == 0);
    drop(table);
    Ok(())
}

#[test]
fn a_table_takes_as_many_rows_as_it_may_have(rt: HostRuntime) -> Result<(), Fail> {
    let alloc = rt.alloc();
    let mut two = Vec::new(alloc);
    two.push(seven(alloc)?)?;
    two.push(seven(alloc)?)?;
    let mut one = Vec::new(alloc);
    one.push(seven(alloc)?)?;
    let name = Text::new(alloc, "n")?;
    let mut columns = Seq::new(alloc);
    columns.push(ColumnDef {
        name,
        ty: Ty::Integer,
        not_null: true,
    })?;
    let mut table = Table::new(alloc, columns, Seq::new(alloc), 2);
    assert!(rt; table.insert(alloc, NewRows::of(two)).is_ok());
    assert!(rt; table.insert(alloc, NewRows::of(one)) == Err(TableFault::Full));
    assert_eq!(rt; table.len(), 2);
    drop(table);
    Ok(())
}

/// Replaces each row by itself.
fn replace_all(alloc: Global, table: &mut Table) -> Result<usize, TableFault> {
    let _rows = table.rows();
    table.update_where(alloc, &[], &None)
}

fn delete_all(alloc: Global, table: &mut Table) -> Result<usize, AllocError> {
    table.delete_where(alloc, &None)
}

#[test]
fn rows_are_replaced_moved_and_deleted(rt: HostRuntime) -> Result<(), Fail> {
    let alloc = rt.alloc();
    let mut two = Vec::new(alloc);
    two.push(seven(alloc)?)?;
    two.push(seven(alloc)?)?;
    let name = Text::new(alloc, "n")?;
    let mut columns = Seq::new(alloc);
    columns.push(ColumnDef {
        name,
        ty: Ty::Integer,
        not_null: true,
    })?;
    let mut table = Table::new(alloc, columns, Seq::new(alloc), 2);
    assert!(rt; table.insert(alloc, NewRows::of(two)).is_ok());
    assert!(rt; replace_all(alloc, &mut table) == Ok(2));
    assert!(rt; table.len() == 2 && table.write_len() == 4 && table.marked_len() == 0);
    table.move_step(alloc, 3)?;
    assert_eq!(rt; delete_all(alloc, &mut table)?, 2);
    assert!(rt; table.len() == 0 && table.write_len() == 1 && table.marked_len() == 1);
    table.merge_step(alloc)?;
    assert!(rt; table.len() == 0 && table.write_len() == 1 && table.marked_len() == 0);
    drop(table);
    Ok(())
}

/// How the column compares with a number, which stands on the left.
fn compared_with(comparison: Comparison, number: i128) -> Option<Cond> {
    let literal = ExprTree::Literal(Value::Number(number));
    let tree = CondTree::Compare(comparison, literal, ExprTree::Column(0));
    Some(Cond::new(tree))
}

#[test]
fn a_segment_is_passed_where_its_bounds_rule_where_out(rt: HostRuntime) -> Result<(), Fail> {
    let alloc = rt.alloc();
    // how a number compares with the column, the number, and whether a segment of 7 alone is passed
    let cases = [
        (Comparison::Less, 7, true),
        (Comparison::Less, 6, false),
        (Comparison::GreaterOrEqual, 6, true),
        (Comparison::GreaterOrEqual, 7, false),
        (Comparison::Equal, 8, true),
    ];
    let mut one = Vec::new(alloc);
    one.push(seven(alloc)?)?;
    let name = Text::new(alloc, "n")?;
    let mut columns = Seq::new(alloc);
    columns.push(ColumnDef {
        name,
        ty: Ty::Integer,
        not_null: true,
    })?;
    let mut table = Table::new(alloc, columns, Seq::new(alloc), 2);
    assert!(rt; table.insert(alloc, NewRows::of(one)).is_ok());
    table.move_step(alloc, 1)?;
    for (comparison, number, is_passed) in cases {
        let filter = compared_with(comparison, number);
        let passed = split_unkept(&filter, &table.rows()).is_some();
        assert_eq!(rt; passed, is_passed, "{number}");
        drop(filter);
    }
    drop(table);
    Ok(())
}
