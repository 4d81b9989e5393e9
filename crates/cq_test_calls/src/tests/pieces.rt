//! Scripts and the pieces that they are cut into.
use cq_sql_tokens::split;

/// Whether the script has these pieces: of each its text, whether it is closed, and whether it is blank.
fn is_cut_into(script: &str, wanted: &[(&str, bool, bool)]) -> bool {
    let mut pieces = split(script);
    for (text, closed, blank) in wanted {
        let Some(piece) = pieces.next() else {
            return false;
        };
        if piece.text != *text || piece.closed != *closed || piece.blank != *blank {
            return false;
        }
    }
    pieces.next().is_none()
}

#[test]
fn a_semicolon_ends_a_piece(rt: HostRuntime) {
    assert!(rt; is_cut_into("", &[("", false, true)]));
    assert!(rt; is_cut_into("a;b", &[("a", true, false), ("b", false, false)]));
    assert!(rt; is_cut_into(";", &[("", true, true), ("", false, true)]));
    assert!(rt; is_cut_into("é;ß", &[("é", true, false), ("ß", false, false)]));
    assert!(rt; is_cut_into(" \r\n;\tx", &[(" \r\n", true, true), ("\tx", false, false)]));
}

#[test]
fn a_text_keeps_its_semicolons(rt: HostRuntime) {
    assert!(rt; is_cut_into("';';", &[("';'", true, false), ("", false, true)]));
    assert!(rt; is_cut_into("''';';", &[("''';'", true, false), ("", false, true)]));
    assert!(rt; is_cut_into("'--';", &[("'--'", true, false), ("", false, true)]));
    assert!(rt; is_cut_into("a;'b;c", &[("a", true, false), ("'b;c", false, false)]));
}

#[test]
fn a_comment_keeps_its_semicolons_to_the_end_of_its_line(rt: HostRuntime) {
    assert!(rt; is_cut_into("--;\n;", &[("--;\n", true, true), ("", false, true)]));
    assert!(rt; is_cut_into("--a\r;\n;", &[("--a\r;\n", true, true), ("", false, true)]));
    assert!(rt; is_cut_into("a--;'\n;", &[("a--;'\n", true, false), ("", false, true)]));
    assert!(rt; is_cut_into("- -;", &[("- -", true, false), ("", false, true)]));
    assert!(rt; is_cut_into("-;--;", &[("-", true, false), ("--;", false, true)]));
}
