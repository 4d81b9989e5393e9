//! Quoted texts.
ghost use Rattle.cq_sql_tokens.specs.Lexing.{Gives, quoted_at};

use crate::fault::TokenFault;
use cq_sql_language::Token;
use cq_values::Text;
use std::alloc::Global;

/// The quoted text in front whose first quote is gone, and what follows it.
pub fn quoted_at(alloc: Global, text: &str) -> Result<(Token, &str), TokenFault>
    ensures { Gives (λ x. (x.0, x.1.now)) result (quoted_at text.now) }
{
    let mut content = String::new(alloc);
    let mut rest = text;
    while let Some((part, after)) = rest.split_once('\'') {
        content.push_str(part)?;
        let Some(more) = after.strip_prefix('\'') else {
            return Ok((Token::Text(Text::from_string(content)), after));
        };
        content.push('\'')?;
        rest = more;
    }
    Err(TokenFault::Syntax)
}
