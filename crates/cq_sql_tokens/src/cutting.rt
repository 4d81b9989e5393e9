//! Where the first piece of a script ends, in one pass over its bytes.
ghost use Rattle.std.specs.Prelude.{◌≡◌, ◌≤◌, ◌<◌, length, slice_index};
ghost use Rattle.std.specs.List.{list_all, prefix_len};
ghost use Rattle.cq_sql_language.specs.Characters.{is_blank};
ghost use Rattle.cq_sql_tokens.specs.Cutting.{context_after, ends_piece, stays_blank, is_blank_end, cut_end, cut_blank};
ghost use Rattle.cq_sql_tokens.specs.Runs.{is_plain};

use crate::characters::is_blank;
use memchr::memchr3;

/// What a byte stands in.
#[derive(Clone, Copy)]
enum Context {
    Outside,
    AfterDash,
    InText,
    InComment,
}

/// The first piece of a script: how long it is, and whether it is blanks and comments alone.
#[derive(Clone, Copy)]
pub struct Cut {
    pub end: usize,
    pub blank: bool,
}

pub fn first_cut(bytes: &[u8]) -> Cut
    ensures end { result.end ≡ cut_end Context.Outside bytes.now }
    ensures blank { result.blank ≡ cut_blank Context.Outside bytes.now }
    ensures within { result.end ≤ length bytes.now }
    ensures semicolon { result.end < length bytes.now → slice_index bytes.now result.end ≡ 59 }
{
    let plain = plain_len(bytes);
    let (front, rest) = bytes.split_at(plain);
    let cut = cut_of(rest);
    let end = plain + cut.end;
    let blank = is_all_blank(front) && cut.blank;
    Cut { end, blank }
}

/// How many bytes stand before the first one that begins a text or a comment, or ends a piece.
fn plain_len(bytes: &[u8]) -> usize
    ensures { result ≡ prefix_len is_plain bytes.now }
{
    memchr3(b';', b'\'', b'-', bytes).unwrap_or(bytes.len())
}

fn is_all_blank(bytes: &[u8]) -> bool
    ensures { result ≡ list_all is_blank bytes.now }
{
    bytes.iter().all(|b| is_blank(*b))
}

/// The first piece, byte by byte.
fn cut_of(bytes: &[u8]) -> Cut
    ensures end { result.end ≡ cut_end Context.Outside bytes.now }
    ensures blank { result.blank ≡ cut_blank Context.Outside bytes.now }
    ensures within { result.end ≤ length bytes.now }
    ensures semicolon { result.end < length bytes.now → slice_index bytes.now result.end ≡ 59 }
{
    let mut context = Context::Outside;
    let mut blank = true;
    for (i, b) in bytes.iter().enumerate() {
        if context.ends_piece(*b) {
            let blank = blank && context.is_blank_end();
            return Cut { end: i, blank };
        }
        blank = blank && context.stays_blank(*b);
        context = context.after(*b);
    }
    Cut {
        end: bytes.len(),
        blank: blank && context.is_blank_end(),
    }
}

impl Context {
    fn after(self, b: u8) -> Context
        ensures { result ≡ context_after self b }
    {
        match self {
            Context::InText if b != b'\'' => Context::InText,
            Context::InText => Context::Outside,
            Context::InComment if b != b'\n' => Context::InComment,
            Context::InComment => Context::Outside,
            Context::AfterDash if b == b'-' => Context::InComment,
            Context::AfterDash | Context::Outside => match b {
                b'\'' => Context::InText,
                b'-' => Context::AfterDash,
                _ => Context::Outside,
            },
        }
    }

    fn ends_piece(self, b: u8) -> bool
        ensures { result ≡ ends_piece self b }
    {
        match self {
            Context::Outside | Context::AfterDash => b == b';',
            Context::InText | Context::InComment => false,
        }
    }

    /// Whether a piece that was blank so far may be blank with this byte. A dash is told by the next byte.
    fn stays_blank(self, b: u8) -> bool
        ensures { result ≡ stays_blank self b }
    {
        match self {
            Context::Outside => is_blank(b) || b == b'-',
            Context::AfterDash => b == b'-',
            Context::InText => false,
            Context::InComment => true,
        }
    }

    /// Whether a piece that was blank so far is blank if it ends here.
    fn is_blank_end(self) -> bool
        ensures { result ≡ is_blank_end self }
    {
        match self {
            Context::Outside | Context::InComment => true,
            Context::AfterDash | Context::InText => false,
        }
    }
}
