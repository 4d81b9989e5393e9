//! Tokens of a statement.
//!
//! `cq_sql_tokens` makes them of a text, and the readers take them from the front of a list, which they only lend. A
//! keyword and a symbol are one byte each; a name, folded to lower case, and a text own their bytes.
use cq_values::Text;

/// The words that are no names.
#[derive(Clone, Copy, Debug, PartialEq, Eq)]
pub enum Keyword {
    And,
    As,
    Asc,
    Between,
    By,
    Copy,
    Count,
    Create,
    Date,
    Day,
    Delete,
    Desc,
    Distinct,
    Drop,
    Extract,
    From,
    Group,
    Having,
    In,
    Inner,
    Insert,
    Integer,
    Into,
    Is,
    Join,
    Left,
    Like,
    Limit,
    Max,
    Merge,
    Min,
    Month,
    Move,
    Not,
    Null,
    On,
    Or,
    Order,
    Outer,
    Refresh,
    Select,
    Set,
    Sort,
    Sum,
    Table,
    Text,
    Update,
    Values,
    View,
    Where,
    Year,
}

/// The signs that stand between words.
#[derive(Clone, Copy, Debug, PartialEq, Eq)]
pub enum Symbol {
    Open,
    Close,
    Comma,
    Dot,
    Equal,
    NotEqual,
    Less,
    LessOrEqual,
    Greater,
    GreaterOrEqual,
    Plus,
    Minus,
    Star,
}

/// A token. A name is in lower case, a text is without its quotes, and the greatest number stands for every number
/// from it on.
#[derive(Debug, Drop)]
pub enum Token {
    Keyword(Keyword),
    Name(Text),
    Number(u128),
    Text(Text),
    Symbol(Symbol),
}
