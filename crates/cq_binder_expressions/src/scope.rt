//! What expressions read: the columns of the sources that FROM has joined.
//!
//! A [`Scope`] is made once for a clause, of columns that it lends, and every expression of the clause is then typed
//! and bound in it. A name is looked for among all columns, one after the other, each time that it is written.
ghost use Rattle.std.specs.List.{list_any};
ghost use Rattle.std.specs.Prelude.{◌==◌, ◌≡◌, ◌<◌, [], IfOk, IfSome, Some, length, position, unwrap_or};
ghost use Rattle.cq_values.specs.Texts.{is_text};
ghost use Rattle.cq_binder_rules.specs.Places.{named_place, place_of, row_place};
ghost use Rattle.cq_binder_rules.specs.Scopes.{column_place, of_rows, scope_column};
ghost use Rattle.cq_binder_rules.specs.Typing.{is_known, is_meant, is_of_source, knows, may_read, resolved, rows_in};
ghost use Rattle.cq_binder_expressions.specs.Expressions.{scope_of};

use cq_binder_rules::Fault;
use cq_sql_language::ColumnName;
use cq_values::{ColumnDef, Text, Ty};
use std::marker::Model;

/// A column that expressions read.
#[derive(Debug, Drop)]
pub struct ScopeColumn<'a> {
    source: &'a str,
    name: &'a str,
    ty: Ty,
    size: u128,
}

impl<'a> Model for ScopeColumn<'a> {
    ghost use Rattle.cq_binder_rules.specs.Typing as typing;

    ghost Value = { typing.ScopeColumn };

    ghost view = { λ c. record { source = c.source.now; name = c.name.now; ty = c.ty; size = c.size } };
}

impl<'a> ScopeColumn<'a> {
    /// A column of a source that is known by this name, whose numbers never exceed the size.
    pub fn new(source: &'a str, column: &'a ColumnDef, size: u128) -> ScopeColumn<'a>
        ensures { result ≡ scope_column source.now (column.now, size) }
    {
        ScopeColumn {
            source,
            name: column.name.as_str(),
            ty: column.ty,
            size,
        }
    }

    pub fn ty(&self) -> Ty
        ensures { result ≡ self.now.ty }
    {
        self.ty
    }

    pub(crate) fn size(&self) -> u128
        ensures { result ≡ self.now.size }
    {
        self.size
    }

    fn is_named(&self, name: &str) -> bool
        ensures { result ≡ is_text self.now.name name.now }
    {
        self.name == name
    }

    /// Whether its source is known by the name.
    fn is_from(&self, source: &str) -> bool
        ensures { result ≡ is_text self.now.source source.now }
    {
        self.source == source
    }

    /// Whether it is of the source that a name tells, if it tells one.
    fn is_of_source(&self, source: &Option<Text>) -> bool
        ensures { result ≡ is_of_source source.now self.now }
    {
        match source {
            Some(source) => self.is_from(source.as_str()),
            None => true,
        }
    }

    /// Whether a name means this column.
    fn is_meant(&self, name: &ColumnName) -> bool
        ensures { result ≡ is_meant name.now self.now }
    {
        self.is_named(name.name.as_str()) && self.is_of_source(&name.source)
    }
}

/// The columns of all sources, in the order of the joined rows.
#[derive(Clone, Copy, Debug)]
pub struct Scope<'a> {
    pub columns: &'a [ScopeColumn<'a>],
    /// Where the columns of GROUP BY stand, for the items of groups.
    pub grouped: Option<&'a [usize]>,
}

impl<'a> Scope<'a> {
    /// What expressions over rows with these columns see.
    pub fn of_rows(columns: &'a [ScopeColumn<'a>]) -> Scope<'a>
        ensures { scope_of result ≡ of_rows columns.now }
    {
        Scope {
            columns,
            grouped: None,
        }
    }

    /// What the items of groups see of these rows: the columns of GROUP BY, which stand at these places.
    pub fn of_groups(columns: &'a [ScopeColumn<'a>], group: &'a [usize]) -> Scope<'a>
        ensures { scope_of result ≡ record { columns = columns.now; grouped = Some group.now } }
    {
        Scope {
            columns,
            grouped: Some(group),
        }
    }

    /// What the argument of an aggregate sees: the rows.
    pub(crate) fn rows(&self) -> Scope<'a>
        ensures { scope_of result ≡ rows_in (scope_of self.now) }
    {
        Scope::of_rows(self.columns)
    }

    /// Whether the column at a place may be read.
    pub(crate) fn may_read(&self, place: usize) -> bool
        ensures { result ≡ may_read (scope_of self.now).grouped place }
    {
        match self.grouped {
            Some(group) => is_grouped(group, place),
            None => true,
        }
    }

    /// Where the columns of a group's key stand, if groups are read.
    pub(crate) fn key(&self) -> &'a [usize]
        ensures { result.now ≡ unwrap_or (scope_of self.now).grouped [] }
    {
        match self.grouped {
            Some(group) => group,
            None => &[],
        }
    }

    /// Where a column stands that may be read: in a joined row, or in a group's key.
    pub(crate) fn place_of(&self, name: &ColumnName) -> usize
        ensures { result ≡ place_of (scope_of self.now) name.now }
    {
        let place = row_place(self.columns, name);
        match self.grouped {
            Some(group) => key_place(group, place).unwrap_or(0),
            None => place,
        }
    }
}

/// Where the column stands that a name means: an unknown source or column, or a name that means several, is refused.
pub fn resolved(columns: &[ScopeColumn<'_>], name: &ColumnName) -> Result<usize, Fault>
    ensures place { result ≡ resolved columns.now name.now }
    ensures row { IfOk result (λ place. place ≡ row_place columns.now name.now) }
    ensures within { IfOk result (λ place. place < length columns.now) }
{
    if !knows(columns, &name.source) {
        return Err(Fault::UnknownTable);
    }
    let Some(place) = meant_place(columns, name) else {
        return Err(Fault::UnknownColumn);
    };
    if is_any_meant(&columns[place + 1..], name) {
        return Err(Fault::AmbiguousColumn);
    }
    Ok(place)
}

/// Where the column stands that a name means, once it is resolved.
pub fn row_place(columns: &[ScopeColumn<'_>], name: &ColumnName) -> usize
    ensures { result ≡ row_place columns.now name.now }
{
    meant_place(columns, name).unwrap_or(0)
}

/// Where the column of a name stands in the rows of one source.
pub fn named_place(columns: &[ScopeColumn<'_>], name: &str) -> Option<usize>
    ensures place { result ≡ named_place columns.now name.now }
    ensures within { IfSome result (λ place. place < length columns.now) }
{
    columns.iter().position(|column| column.is_named(name))
}

/// Whether a source is known by the name.
pub fn is_known(columns: &[ScopeColumn<'_>], name: &str) -> bool
    ensures { result ≡ is_known columns.now name.now }
{
    columns.iter().any(|column| column.is_from(name))
}

/// Whether the source that a column's name tells, if it tells one, is there.
fn knows(columns: &[ScopeColumn<'_>], source: &Option<Text>) -> bool
    ensures { result ≡ knows columns.now source.now }
{
    match source {
        Some(source) => is_known(columns, source.as_str()),
        None => true,
    }
}

fn meant_place(columns: &[ScopeColumn<'_>], name: &ColumnName) -> Option<usize>
    ensures place { result ≡ position (is_meant name.now) columns.now }
    ensures within { IfSome result (λ place. place < length columns.now) }
{
    columns.iter().position(|column| column.is_meant(name))
}

fn is_any_meant(columns: &[ScopeColumn<'_>], name: &ColumnName) -> bool
    ensures { result ≡ list_any (is_meant name.now) columns.now }
{
    columns.iter().any(|column| column.is_meant(name))
}

/// Whether a place is one of a column of GROUP BY.
fn is_grouped(group: &[usize], place: usize) -> bool
    ensures { result ≡ list_any (λ g. g == place) group.now }
{
    group.iter().any(|g| *g == place)
}

/// Where a column of GROUP BY stands in a group's key.
fn key_place(group: &[usize], place: usize) -> Option<usize>
    ensures { result ≡ position (λ g. g == place) group.now }
{
    group.iter().position(|g| *g == place)
}

/// Where the column of a name stands among those that are declared.
pub fn column_place(columns: &[ColumnDef], name: &str) -> Option<usize>
    ensures { result ≡ column_place columns.now name.now }
{
    columns.iter().position(|c| c.name.as_str() == name)
}
