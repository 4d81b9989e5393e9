//! Groups of a change that is put in where there were none.
ghost use Rattle.std.specs.Prelude.{◌≡◌, []};
ghost use Rattle.cq_deltas.specs.Keyed.{HasKeys, additions_at, group_at};
ghost use Rattle.cq_deltas.specs.Laws.{AreSmall};
ghost use Rattle.cq_values.specs.Value.{Row as Values};

use cq_deltas::{GroupChange, Grouping, Groups};
use cq_model::{Aggregate, Expr, ShowFault};
use cq_values::Value;
use cq_values_rows::FlatRows;
use std::alloc::Global;
use std::test::Fail;

/// What groups without rows show, once the rows of a change are put in.
fn shown_alone(
    alloc: Global,
    aggregates: &[Aggregate],
    groups: Groups,
    change: GroupChange,
) -> Result<FlatRows, ShowFault>
    requires keys { HasKeys change groups }
    requires none { (k : Values) → group_at aggregates.now groups k ≡ group_at aggregates.now [] k }
    requires small { AreSmall [] (additions_at groups change) }
{
    let mut groups = groups;
    groups.open().take(change);
    groups.shown_rows(alloc, aggregates)
}

/// Of the rows NULL and 5, twice, and NULL and NULL: how many there are, how many numbers, and their total, by the first column.
fn under_null(alloc: Global) -> Result<FlatRows, ShowFault> {
    let (five, null) = ([Value::Null, Value::Number(5)], [Value::Null, Value::Null]);
    let aggregates = [
        Aggregate::CountAll,
        Aggregate::Count(Expr::column(1)),
        Aggregate::Sum(Expr::column(1)),
    ];
    let by = Grouping {
        columns: &[0],
        aggregates: &aggregates,
    };
    let mut groups = Groups::new(alloc);
    let mut change = GroupChange::new(alloc);
    let open = groups.open();
    open.ready(alloc, by, &five, 2, &mut change)?;
    open.ready(alloc, by, &null, 1, &mut change)?;
    shown_alone(alloc, &aggregates, groups, change)
}

#[test]
fn null_is_one_key_and_adds_nothing(rt: HostRuntime) -> Result<(), Fail> {
    let rows = under_null(rt.alloc())?;
    let (three, two, ten) = (Value::Number(3), Value::Number(2), Value::Number(10));
    assert!(rt; rows.len() == 1);
    assert!(rt; rows.row(0) == [Value::Null, three, two, ten].as_slice());
    Ok(())
}

/// The total of the greatest number, so often, and of four zeros.
fn total(alloc: Global, weight: i8) -> Result<FlatRows, ShowFault> {
    let (greatest, zero) = ([Value::Number(i128::MAX)], [Value::Number(0)]);
    let aggregates = [Aggregate::Sum(Expr::column(0))];
    let by = Grouping {
        columns: &[],
        aggregates: &aggregates,
    };
    let mut groups = Groups::new(alloc);
    let mut change = GroupChange::new(alloc);
    let open = groups.open();
    open.ready(alloc, by, &greatest, i128::from(weight), &mut change)?;
    open.ready(alloc, by, &zero, 4, &mut change)?;
    shown_alone(alloc, &aggregates, groups, change)
}

/// How often the greatest number is there, and whether the total can be shown.
const WEIGHTS: &[(i8, bool)] = &[(1, true), (2, false), (-1, true), (-2, false)];

#[test]
fn a_sum_may_leave_its_range_and_come_back(rt: HostRuntime) {
    for (weight, fits) in WEIGHTS {
        match total(rt.alloc(), *weight) {
            Ok(_) => assert!(rt; *fits),
            Err(fault) => assert!(rt; !*fits && fault == ShowFault::SumOutOfRange),
        }
    }
}

/// MIN and MAX of 5, twice, of 3, so often, and of NULL, where 5 comes so often more, or leaves.
fn ends(alloc: Global, fives: i8, threes: i8) -> Result<FlatRows, ShowFault> {
    let (five, three, null) = ([Value::Number(5)], [Value::Number(3)], [Value::Null]);
    let aggregates = [
        Aggregate::Min(Expr::column(0)),
        Aggregate::Max(Expr::column(0)),
    ];
    let by = Grouping {
        columns: &[],
        aggregates: &aggregates,
    };
    let (fives, threes) = (i128::from(fives), i128::from(threes));
    let mut groups = Groups::new(alloc);
    let mut change = GroupChange::new(alloc);
    let open = groups.open();
    open.ready(alloc, by, &five, 2, &mut change)?;
    open.ready(alloc, by, &three, threes, &mut change)?;
    open.ready(alloc, by, &null, 1, &mut change)?;
    open.ready(alloc, by, &five, fives, &mut change)?;
    shown_alone(alloc, &aggregates, groups, change)
}

/// How often 5 comes, or leaves, and how often 3 is there, and then the least value and the greatest.
const ENDS: &[(i8, i8, Option<i128>, Option<i128>)] = &[
    (-1, 1, Some(3), Some(5)),
    (-1, 0, Some(5), Some(5)),
    (-2, 1, Some(3), Some(3)),
    (-2, 0, None, None),
];

fn is(value: &Value, number: &Option<i128>) -> bool {
    match (value, number) {
        (Value::Number(n), Some(m)) => n == m,
        (Value::Null, None) => true,
        _ => false,
    }
}

#[test]
fn the_ends_go_on_as_values_leave(rt: HostRuntime) -> Result<(), Fail> {
    for (fives, threes, least, greatest) in ENDS {
        let rows = ends(rt.alloc(), *fives, *threes)?;
        assert!(rt; rows.len() == 1 && rows.row(0).len() == 2);
        let row = rows.row(0);
        assert!(rt;
            is(&row[0], least) && is(&row[1], greatest),
            "5 {fives} times, 3 {threes} times"
        );
    }
    Ok(())
}
