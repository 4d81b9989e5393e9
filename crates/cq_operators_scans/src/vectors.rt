//! The values of an expression in each row of a scan.
ghost use Rattle.std.specs.Prelude.{◌≡◌, IfOk, map, true};
ghost use Rattle.std.specs.List.{AllByRecursion};
ghost use Rattle.cq_model.specs.Eval.{eval};
ghost use Rattle.cq_model.specs.Exact.{IsExactAt};
ghost use Rattle.cq_model.specs.Trees.{expr_of};
ghost use Rattle.cq_operators_scans.specs.Operand.{WorksOut, values_in, values_signed};
ghost use Rattle.cq_operators_scans.specs.Nodes.{is_operation};

use crate::operand::Operand;
use crate::scan::Scan;
use crate::worked::{Signed, Worked};
use cq_model::{Expr, ExprTree};
use cq_vectors::{Buffers, Form, Vector};
use std::alloc::{AllocError, Global};

/// The value of the expression in each row. A column that was gathered is lent, and results stand in memory of the
/// buffers.
pub fn vector_of<'s, 'a>(
    alloc: Global,
    buffers: &mut Buffers,
    expr: &'a Expr,
    scan: &'s Scan<'a>,
) -> Result<Operand<'s, 'a>, AllocError>
    requires { AllByRecursion (IsExactAt expr.now) scan.now }
    ensures { IfOk result (λ values. values_in values ≡ map (eval expr.now) scan.now) }
{
    operand_of(alloc, buffers, expr.tree(), scan)
}

/// The same, each time made.
pub fn own_vector_of<'a>(
    alloc: Global,
    buffers: &mut Buffers,
    expr: &'a Expr,
    scan: &Scan<'a>,
) -> Result<Vector<'a>, AllocError>
    requires { AllByRecursion (IsExactAt expr.now) scan.now }
    ensures { IfOk result (λ values. values ≡ map (eval expr.now) scan.now) }
{
    match worked_out(alloc, buffers, expr.tree(), scan)? {
        Worked::Column(place) => scan.gather(alloc, place),
        Worked::Values(values) => Ok(values),
    }
}

/// The same of an expression that is asked for once: no memory is kept.
pub(crate) fn vector_of_tree<'s, 'a>(
    alloc: Global,
    tree: &'a ExprTree,
    scan: &'s Scan<'a>,
) -> Result<Operand<'s, 'a>, AllocError>
    requires { AllByRecursion (IsExactAt (expr_of tree.now)) scan.now }
    ensures { IfOk result (λ values. values_in values ≡ map (eval (expr_of tree.now)) scan.now) }
{
    let mut buffers = Buffers::new(alloc);
    operand_of(alloc, &mut buffers, tree, scan)
}

fn operand_of<'s, 'a>(
    alloc: Global,
    buffers: &mut Buffers,
    tree: &'a ExprTree,
    scan: &'s Scan<'a>,
) -> Result<Operand<'s, 'a>, AllocError>
    requires { AllByRecursion (IsExactAt (expr_of tree.now)) scan.now }
    ensures { IfOk result (λ values. values_in values ≡ map (eval (expr_of tree.now)) scan.now) }
{
    match worked_out(alloc, buffers, tree, scan)? {
        Worked::Column(place) => scan.column(alloc, place),
        Worked::Values(values) => Ok(Operand::Own(values)),
    }
}

/// What the expression comes to. No column is gathered that is not worked with. Columns and literals, which are most, have
/// none of the locals of what is worked out.
#[cycle(working)]
fn worked_out<'a>(
    alloc: Global,
    buffers: &mut Buffers,
    tree: &'a ExprTree,
    scan: &Scan<'a>,
) -> Result<Worked<'a>, AllocError>
    requires { AllByRecursion (IsExactAt (expr_of tree.now)) scan.now }
    ensures { IfOk result (WorksOut scan.now (map (eval (expr_of tree.now)) scan.now)) }
{
    match tree {
        ExprTree::Column(place) => Ok(Worked::Column(*place)),
        ExprTree::Literal(value) => {
            let values = Vector::new(Form::Constant(value.lend(), scan.len()));
            Ok(Worked::Values(values))
        }
        ExprTree::Negate(..) | ExprTree::Sum(..) | ExprTree::Product(..) | ExprTree::Extract(..) =>
            operation_worked_out(alloc, buffers, tree, scan),
    }
}

/// The same of a term of a sum. Of a negative one no numbers with the other sign are made.
#[cycle(working)]
fn term_worked_out<'a>(
    alloc: Global,
    buffers: &mut Buffers,
    tree: &'a ExprTree,
    scan: &Scan<'a>,
) -> Result<Signed<'a>, AllocError>
    requires { AllByRecursion (IsExactAt (expr_of tree.now)) scan.now }
    ensures { IfOk result (λ term. values_signed scan.now term ≡ map (eval (expr_of tree.now)) scan.now) }
{
    if let ExprTree::Negate(part) = tree {
        let worked = worked_out(alloc, buffers, part, scan)?;
        Ok(Signed {
            worked,
            is_negative: true,
        })
    } else {
        let worked = worked_out(alloc, buffers, tree, scan)?;
        Ok(Signed {
            worked,
            is_negative: false,
        })
    }
}

/// The same of an operation.
#[cycle(working)]
fn operation_worked_out<'a>(
    alloc: Global,
    buffers: &mut Buffers,
    tree: &'a ExprTree,
    scan: &Scan<'a>,
) -> Result<Worked<'a>, AllocError>
    requires operation { is_operation tree.now ≡ true }
    requires exact { AllByRecursion (IsExactAt (expr_of tree.now)) scan.now }
    ensures { IfOk result (WorksOut scan.now (map (eval (expr_of tree.now)) scan.now)) }
{
    match tree {
        ExprTree::Negate(part) => worked_out(alloc, buffers, part, scan)?.negated(
            alloc, buffers, scan,
        ),
        ExprTree::Sum(first, rest) => {
            let mut sum = worked_out(alloc, buffers, first, scan)?;
            for term in rest {
                let term = match term_worked_out(alloc, buffers, term, scan) {
                    Ok(term) => term,
                    Err(fault) => {
                        drop(sum);
                        return Err(fault);
                    }
                };
                sum = sum.plus(alloc, buffers, term, scan)?;
            }
            Ok(sum)
        }
        ExprTree::Product(first, rest) => {
            let mut product = worked_out(alloc, buffers, first, scan)?;
            for factor in rest {
                let factor = match worked_out(alloc, buffers, factor, scan) {
                    Ok(factor) => factor,
                    Err(fault) => {
                        drop(product);
                        return Err(fault);
                    }
                };
                product = product.times(alloc, buffers, factor, scan)?;
            }
            Ok(product)
        }
        ExprTree::Extract(day_part, part) => {
            worked_out(alloc, buffers, part, scan)?.extracted(alloc, buffers, *day_part, scan)
        }
        _ => unreachable!(),
    }
}
