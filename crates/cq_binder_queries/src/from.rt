//! FROM: its sources, each joined to those before it.
ghost use Rattle.std.specs.Prelude.{◌+◌, ◌∷◌, ◌≡◌, ◌<◌, ◌≤◌, [], IfOk, OnOk, length, nat_lt};
ghost use Rattle.cq_binder_rules.specs.From.{base_limit, equality_at, first_from, may_equal};
ghost use Rattle.cq_binder_rules.specs.Scopes.{source_named};
ghost use Rattle.cq_binder_queries.specs.Catalog.{state_of};
ghost use Rattle.cq_binder_queries.specs.From.{Begins, BindsEquality, BindsOn, Finds, JoinsAll, JoinsBehind, JoinsFound, PutsColumns, may_stand, shown_from, shown_source};
ghost use Rattle.cq_binder_queries.specs.Walk.{Passes};

use crate::catalog::{Catalog, TableEntry, ViewEntry};
use crate::scopes::{known_as, push_shown, push_stored};
use cq_binder_expressions::{ScopeColumn, is_known, resolved};
use cq_binder_rules::Fault;
use cq_model::{Equality, Join, Source};
use cq_sql_language::{FromSource, JoinedSource, OnEquality, Select};
use cq_values::Seq;
use std::alloc::{AllocError, Global};

/// A query reads at most so many base tables.
const MAX_BASES: u128 = 4;

/// What may stand in FROM.
#[derive(Clone, Copy, Debug, PartialEq, Eq)]
pub enum Allowed {
    /// Tables and views.
    All,
    /// Tables alone.
    Tables,
}

/// What a name in FROM stands for.
#[derive(Drop)]
pub(crate) enum FoundSource<'a> {
    Table(TableEntry<'a>),
    View(ViewEntry<'a>),
}

impl<'a> FoundSource<'a> {
    fn name(&self) -> &'a str
        ensures { result.now ≡ (shown_source self.now).known }
    {
        match self {
            FoundSource::Table(table) => table.name,
            FoundSource::View(view) => view.name,
        }
    }

    fn source(&self) -> Source
        ensures { result ≡ (shown_source self.now).source }
    {
        match self {
            FoundSource::Table(table) => Source::Table(table.number),
            FoundSource::View(view) => Source::View(view.place),
        }
    }

    /// How many base tables it reads.
    fn bases(&self) -> usize
        ensures { result ≡ (shown_source self.now).bases }
    {
        match self {
            FoundSource::Table(_) => 1,
            FoundSource::View(view) => view.bases,
        }
    }

    /// Refuses a view where it may not stand.
    fn check(&self, allowed: Allowed) -> Result<(), Fault>
        ensures { Passes (may_stand allowed (shown_source self.now) ∷ []) result }
    {
        match allowed {
            Allowed::All => Ok(()),
            Allowed::Tables => match self {
                FoundSource::Table(_) => Ok(()),
                FoundSource::View(_) => Err(Fault::ClauseInView),
            },
        }
    }

    /// Puts its columns behind these, under the name that it is known by.
    fn push_columns(
        &self,
        columns: &mut Vec<ScopeColumn<'a>>,
        known: &'a str,
    ) -> Result<(), AllocError>
        ensures { OnOk result (PutsColumns known.now (shown_source self.now) columns.old columns.new) }
    {
        match self {
            FoundSource::Table(table) => push_stored(columns, known, table),
            FoundSource::View(view) => push_shown(columns, known, view),
        }
    }
}

/// What FROM has joined so far.
#[derive(Drop)]
pub struct FromClause<'a> {
    pub first: Source,
    pub joins: Seq<Join>,
    pub columns: Vec<ScopeColumn<'a>>,
    bases: usize,
}

/// The sources of a query, each once it has been walked through and where it may stand there.
pub fn bound_from<'a, C: Catalog>(
    alloc: Global,
    catalog: &'a C,
    allowed: Allowed,
    select: &'a Select,
) -> Result<FromClause<'a>, Fault>
    ensures { JoinsAll allowed (state_of C.tables C.views catalog.now) select.now result }
{
    let mut from = start(alloc, catalog, allowed, &select.first)?;
    for join in select.joins.as_slice() {
        from = with_join(alloc, catalog, allowed, from, join)?;
    }
    Ok(from)
}

/// The first source.
fn start<'a, C: Catalog>(
    alloc: Global,
    catalog: &'a C,
    allowed: Allowed,
    source: &'a FromSource,
) -> Result<FromClause<'a>, Fault>
    ensures { Begins allowed (state_of C.tables C.views catalog.now) source.now result }
{
    let found = found_source(alloc, catalog, source.name.as_str())?;
    found.check(allowed)?;
    Ok(first_of(alloc, source, &found)?)
}

fn first_of<'a>(
    alloc: Global,
    source: &'a FromSource,
    found: &FoundSource<'a>,
) -> Result<FromClause<'a>, AllocError>
    ensures { IfOk result (λ from. shown_from from ≡ first_from source.now (shown_source found.now)) }
{
    let mut columns = Vec::new(alloc);
    found.push_columns(&mut columns, known_as(source, found.name()))?;
    Ok(FromClause {
        first: found.source(),
        joins: Seq::new(alloc),
        columns,
        bases: found.bases(),
    })
}

/// Puts a source behind those so far.
fn with_join<'a, C: Catalog>(
    alloc: Global,
    catalog: &'a C,
    allowed: Allowed,
    from: FromClause<'a>,
    join: &'a JoinedSource,
) -> Result<FromClause<'a>, Fault>
    ensures { JoinsBehind allowed (state_of C.tables C.views catalog.now) from.entry join.now result }
{
    let found = found_source(alloc, catalog, join.source.name.as_str())?;
    joined(alloc, allowed, from, join, &found)
}

fn joined<'a>(
    alloc: Global,
    allowed: Allowed,
    from: FromClause<'a>,
    join: &'a JoinedSource,
    found: &FoundSource<'a>,
) -> Result<FromClause<'a>, Fault>
    ensures { JoinsFound allowed (shown_from from.entry) join.now found.now result }
{
    let known = known_as(&join.source, found.name());
    if is_known(&from.columns, known) {
        return Err(Fault::NameTaken);
    }
    if are_too_many(from.bases, found.bases()) {
        return Err(Fault::TooManyTables);
    }
    found.check(allowed)?;
    let before = from.columns.len();
    let mut wide = from;
    found.push_columns(&mut wide.columns, known)?;
    let on = equalities(alloc, &wide.columns, before, join.on.as_slice())?;
    wide.joins.push(Join {
        source: found.source(),
        on,
    })?;
    wide.bases += found.bases();
    Ok(wide)
}

/// What a name stands for: a table, or else a view.
fn found_source<'a, C: Catalog>(
    alloc: Global,
    catalog: &'a C,
    name: &str,
) -> Result<FoundSource<'a>, Fault>
    ensures { Finds (source_named name.now (state_of C.tables C.views catalog.now)) result }
{
    if let Some(table) = catalog.table(name) {
        return Ok(FoundSource::Table(table));
    }
    match catalog.view(alloc, name)? {
        Some(view) => Ok(FoundSource::View(view)),
        None => Err(Fault::UnknownTable),
    }
}

/// Whether these base tables are more than a query may read.
fn are_too_many(bases: usize, more: usize) -> bool
    ensures { result ≡ nat_lt base_limit (bases + more) }
{
    MAX_BASES < bases as u128 + more as u128
}

/// The equalities of ON, where the source that is joined has the columns from a place on.
fn equalities(
    alloc: Global,
    columns: &[ScopeColumn<'_>],
    before: usize,
    on: &[OnEquality],
) -> Result<Seq<Equality>, Fault>
    ensures { BindsOn columns.now before on.now result }
{
    let mut equalities = Seq::new(alloc);
    for each in on {
        equalities.push(equality(columns, before, each)?)?;
    }
    Ok(equalities)
}

fn equality(columns: &[ScopeColumn<'_>], before: usize, on: &OnEquality) -> Result<Equality, Fault>
    ensures { BindsEquality columns.now before on.now result }
{
    let left = resolved(columns, &on.left)?;
    let right = resolved(columns, &on.right)?;
    if !may_equal(columns, before, left, right) {
        return Err(Fault::TypeMismatch);
    }
    Ok(equality_at(before, left, right))
}

/// Whether two columns may be equal in ON: of one type, and one of them is of the source that is joined.
fn may_equal(columns: &[ScopeColumn<'_>], before: usize, left: usize, right: usize) -> bool
    requires { (left < length columns.now) × (right < length columns.now) }
    ensures { result ≡ may_equal columns.now before left right }
{
    columns[left].ty() == columns[right].ty() && (left < before) != (right < before)
}

fn equality_at(before: usize, left: usize, right: usize) -> Equality
    requires { left < before → before ≤ right }
    ensures { result ≡ equality_at before left right }
{
    if left < before {
        Equality {
            left,
            right: right - before,
        }
    } else {
        Equality {
            left: right,
            right: left - before,
        }
    }
}
