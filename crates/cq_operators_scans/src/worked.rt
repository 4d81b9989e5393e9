//! What expressions come to: a column, or values that were worked out.
ghost use Rattle.std.specs.Prelude.{◌≡◌, IfOk, length, map};
ghost use Rattle.cq_prims_arithmetic.specs.Operation.{AllInRange};
ghost use Rattle.cq_model.specs.Eval.{negated};
ghost use Rattle.cq_operators_scans.specs.Operand.{WorksOut, differences_worked, parts_worked, products_worked, sums_signed, sums_worked, values_in, values_signed, values_worked};

use crate::operand::Operand;
use crate::scan::Scan;
use cq_prims_arithmetic::{add, extract, mul, neg, sub};
use cq_values::DayPart;
use cq_vectors::{Buffers, Vector};
use std::alloc::{AllocError, Global};

/// A column of a scan, of which nothing was made yet, or values that were worked out.
#[derive(Drop)]
pub(crate) enum Worked<'a> {
    Column(usize),
    Values(Vector<'a>),
}

/// A term of a sum: these values, or the numbers with the other sign.
#[derive(Drop)]
pub(crate) struct Signed<'a> {
    pub(crate) worked: Worked<'a>,
    pub(crate) is_negative: bool,
}

impl<'a> Worked<'a> {
    /// The values, lent where they are there.
    pub(crate) fn lend<'s>(
        &'s self,
        alloc: Global,
        scan: &'s Scan<'a>,
    ) -> Result<Operand<'s, 'a>, AllocError>
        ensures { IfOk result (λ values. values_in values ≡ values_worked scan.now self.now) }
    {
        match self {
            Worked::Column(place) => scan.column(alloc, *place),
            Worked::Values(values) => Ok(Operand::Lent(values)),
        }
    }

    /// Lets the values go, and keeps their memory.
    pub(crate) fn give_back(self, buffers: &mut Buffers) {
        if let Worked::Values(values) = self {
            buffers.take_back(values);
        }
    }

    /// The sum with another one in each row, or with its negative.
    pub(crate) fn plus(
        self,
        alloc: Global,
        buffers: &mut Buffers,
        other: Signed<'a>,
        scan: &Scan<'a>,
    ) -> Result<Worked<'a>, AllocError>
        requires same { length (values_worked scan.now self) ≡ length (values_signed scan.now other) }
        requires fits { AllInRange (sums_signed scan.now self other) }
        ensures { IfOk result (WorksOut scan.now (sums_signed scan.now self.entry other.entry)) }
    {
        let Signed {
            worked,
            is_negative,
        } = other;
        let made = if is_negative {
            difference(alloc, buffers, &self, &worked, scan)
        } else {
            sum(alloc, buffers, &self, &worked, scan)
        };
        self.give_back(buffers);
        worked.give_back(buffers);
        Ok(Worked::Values(made?))
    }

    /// The product with another one in each row.
    pub(crate) fn times(
        self,
        alloc: Global,
        buffers: &mut Buffers,
        other: Worked<'a>,
        scan: &Scan<'a>,
    ) -> Result<Worked<'a>, AllocError>
        requires same { length (values_worked scan.now self) ≡ length (values_worked scan.now other) }
        requires fits { AllInRange (products_worked scan.now self other) }
        ensures { IfOk result (WorksOut scan.now (products_worked scan.now self.entry other.entry)) }
    {
        let made = product(alloc, buffers, &self, &other, scan);
        self.give_back(buffers);
        other.give_back(buffers);
        Ok(Worked::Values(made?))
    }

    /// The numbers with the other sign.
    pub(crate) fn negated(
        self,
        alloc: Global,
        buffers: &mut Buffers,
        scan: &Scan<'a>,
    ) -> Result<Worked<'a>, AllocError>
        requires { AllInRange (map negated (values_worked scan.now self)) }
        ensures { IfOk result (WorksOut scan.now (map negated (values_worked scan.now self.entry))) }
    {
        let made = opposite(alloc, buffers, &self, scan);
        self.give_back(buffers);
        Ok(Worked::Values(made?))
    }

    /// A part of each day.
    pub(crate) fn extracted(
        self,
        alloc: Global,
        buffers: &mut Buffers,
        part: DayPart,
        scan: &Scan<'a>,
    ) -> Result<Worked<'a>, AllocError>
        ensures { IfOk result (WorksOut scan.now (parts_worked scan.now part self.entry)) }
    {
        let made = parts(alloc, buffers, part, &self, scan);
        self.give_back(buffers);
        Ok(Worked::Values(made?))
    }
}

fn sum<'a>(
    alloc: Global,
    buffers: &mut Buffers,
    a: &Worked<'a>,
    b: &Worked<'a>,
    scan: &Scan<'a>,
) -> Result<Vector<'a>, AllocError>
    requires same { length (values_worked scan.now a.now) ≡ length (values_worked scan.now b.now) }
    requires fits { AllInRange (sums_worked scan.now a.now b.now) }
    ensures { IfOk result (λ made. made ≡ sums_worked scan.now a.now b.now) }
{
    let (a, b) = lend_two(alloc, a, b, scan)?;
    let made = add(alloc, buffers, a.vector(), b.vector());
    b.give_back(buffers);
    a.give_back(buffers);
    made
}

fn difference<'a>(
    alloc: Global,
    buffers: &mut Buffers,
    a: &Worked<'a>,
    b: &Worked<'a>,
    scan: &Scan<'a>,
) -> Result<Vector<'a>, AllocError>
    requires same { length (values_worked scan.now a.now) ≡ length (values_worked scan.now b.now) }
    requires fits { AllInRange (differences_worked scan.now a.now b.now) }
    ensures { IfOk result (λ made. made ≡ differences_worked scan.now a.now b.now) }
{
    let (a, b) = lend_two(alloc, a, b, scan)?;
    let made = sub(alloc, buffers, a.vector(), b.vector());
    b.give_back(buffers);
    a.give_back(buffers);
    made
}

fn product<'a>(
    alloc: Global,
    buffers: &mut Buffers,
    a: &Worked<'a>,
    b: &Worked<'a>,
    scan: &Scan<'a>,
) -> Result<Vector<'a>, AllocError>
    requires same { length (values_worked scan.now a.now) ≡ length (values_worked scan.now b.now) }
    requires fits { AllInRange (products_worked scan.now a.now b.now) }
    ensures { IfOk result (λ made. made ≡ products_worked scan.now a.now b.now) }
{
    let (a, b) = lend_two(alloc, a, b, scan)?;
    let made = mul(alloc, buffers, a.vector(), b.vector());
    b.give_back(buffers);
    a.give_back(buffers);
    made
}

/// The values of both, lent where they are there.
fn lend_two<'s, 'a>(
    alloc: Global,
    a: &'s Worked<'a>,
    b: &'s Worked<'a>,
    scan: &'s Scan<'a>,
) -> Result<(Operand<'s, 'a>, Operand<'s, 'a>), AllocError>
    ensures a { IfOk result (λ two. values_in two.0 ≡ values_worked scan.now a.now) }
    ensures b { IfOk result (λ two. values_in two.1 ≡ values_worked scan.now b.now) }
{
    let a = a.lend(alloc, scan)?;
    match b.lend(alloc, scan) {
        Ok(b) => Ok((a, b)),
        Err(fault) => {
            drop(a);
            Err(fault)
        }
    }
}

fn opposite<'a>(
    alloc: Global,
    buffers: &mut Buffers,
    numbers: &Worked<'a>,
    scan: &Scan<'a>,
) -> Result<Vector<'a>, AllocError>
    requires { AllInRange (map negated (values_worked scan.now numbers.now)) }
    ensures { IfOk result (λ made. made ≡ map negated (values_worked scan.now numbers.now)) }
{
    let numbers = numbers.lend(alloc, scan)?;
    let made = neg(alloc, buffers, numbers.vector());
    numbers.give_back(buffers);
    made
}

fn parts<'a>(
    alloc: Global,
    buffers: &mut Buffers,
    part: DayPart,
    days: &Worked<'a>,
    scan: &Scan<'a>,
) -> Result<Vector<'a>, AllocError>
    ensures { IfOk result (λ made. made ≡ parts_worked scan.now part days.now) }
{
    let days = days.lend(alloc, scan)?;
    let made = extract(alloc, buffers, part, days.vector());
    days.give_back(buffers);
    made
}
