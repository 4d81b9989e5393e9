//! Words as keywords.
ghost use Rattle.cq_sql_language.specs.Keywords.{keyword_of};
ghost use Rattle.cq_sql_tokens.specs.Lexing.{found_in};
ghost use Rattle.std.specs.Char.{to_ascii_lowercase};
ghost use Rattle.std.specs.Prelude.{◌≡◌, map};

use cq_sql_language::Keyword;

const TWO_LETTERS: [(Keyword, &str); 6] = [
    (Keyword::As, "as"),
    (Keyword::By, "by"),
    (Keyword::In, "in"),
    (Keyword::Is, "is"),
    (Keyword::On, "on"),
    (Keyword::Or, "or"),
];

const THREE_LETTERS: [(Keyword, &str); 8] = [
    (Keyword::And, "and"),
    (Keyword::Asc, "asc"),
    (Keyword::Day, "day"),
    (Keyword::Max, "max"),
    (Keyword::Min, "min"),
    (Keyword::Not, "not"),
    (Keyword::Set, "set"),
    (Keyword::Sum, "sum"),
];

const FOUR_LETTERS: [(Keyword, &str); 15] = [
    (Keyword::Copy, "copy"),
    (Keyword::Date, "date"),
    (Keyword::Desc, "desc"),
    (Keyword::Drop, "drop"),
    (Keyword::From, "from"),
    (Keyword::Into, "into"),
    (Keyword::Join, "join"),
    (Keyword::Left, "left"),
    (Keyword::Like, "like"),
    (Keyword::Move, "move"),
    (Keyword::Null, "null"),
    (Keyword::Sort, "sort"),
    (Keyword::Text, "text"),
    (Keyword::View, "view"),
    (Keyword::Year, "year"),
];

const FIVE_LETTERS: [(Keyword, &str); 10] = [
    (Keyword::Count, "count"),
    (Keyword::Group, "group"),
    (Keyword::Inner, "inner"),
    (Keyword::Limit, "limit"),
    (Keyword::Merge, "merge"),
    (Keyword::Month, "month"),
    (Keyword::Order, "order"),
    (Keyword::Outer, "outer"),
    (Keyword::Table, "table"),
    (Keyword::Where, "where"),
];

const SIX_LETTERS: [(Keyword, &str); 7] = [
    (Keyword::Create, "create"),
    (Keyword::Delete, "delete"),
    (Keyword::Having, "having"),
    (Keyword::Insert, "insert"),
    (Keyword::Select, "select"),
    (Keyword::Update, "update"),
    (Keyword::Values, "values"),
];

const SEVEN_LETTERS: [(Keyword, &str); 4] = [
    (Keyword::Between, "between"),
    (Keyword::Extract, "extract"),
    (Keyword::Integer, "integer"),
    (Keyword::Refresh, "refresh"),
];

const EIGHT_LETTERS: [(Keyword, &str); 1] = [(Keyword::Distinct, "distinct")];

fn found_in(table: &[(Keyword, &str)], word: &str) -> Option<Keyword>
    ensures { result ≡ found_in table.now word.now }
{
    for (keyword, spelling) in table {
        if word.eq_ignore_ascii_case(spelling) {
            return Some(*keyword);
        }
    }
    None
}

/// The keyword that a word is in lower case, if it is one.
pub fn keyword_of(word: &str) -> Option<Keyword>
    ensures { result ≡ keyword_of (map to_ascii_lowercase word.now) }
{
    match word.len() {
        2 => found_in(&TWO_LETTERS, word),
        3 => found_in(&THREE_LETTERS, word),
        4 => found_in(&FOUR_LETTERS, word),
        5 => found_in(&FIVE_LETTERS, word),
        6 => found_in(&SIX_LETTERS, word),
        7 => found_in(&SEVEN_LETTERS, word),
        8 => found_in(&EIGHT_LETTERS, word),
        _ => None,
    }
}
