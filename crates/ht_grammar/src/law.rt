//! Laws of the grammar, each the contract of a function: the reading of tokens answers just the trees of the grammar,
//! and no tokens and no text are two trees.

ghost use Rattle.ht_grammar.specs.Reads.{ReadsScript, ReadsLines, ReadsExpr, ReadsPart, ReadsType, ReadsMessage};
ghost use Rattle.ht_grammar.specs.Reading.{expression};
ghost use Rattle.ht_grammar.specs.Lines.{typed_lines};
ghost use Rattle.ht_grammar.specs.Whole.{script, clicked_part, typed_text, sent_message};
ghost use Rattle.ht_grammar.specs.Laws.{ReadsExactly, OneTree, OneTreePerText, TextsAreReadExactly};

use ht_lex::texts_are_cut_exactly;

/// Expressions.
pub fn expressions_are_read_exactly()
    ensures exact { ReadsExactly expression ReadsExpr }
    ensures one { OneTree ReadsExpr }
    ensures text { OneTreePerText ReadsExpr }
{}

/// Lines of typed commands, of `do` and of call-backs.
pub fn lines_are_read_exactly()
    ensures exact { ReadsExactly typed_lines ReadsLines }
    ensures one { OneTree ReadsLines }
    ensures text { OneTreePerText ReadsLines }
{}

/// Scripts.
pub fn scripts_are_read_exactly()
    ensures exact { ReadsExactly script ReadsScript }
    ensures one { OneTree ReadsScript }
    ensures text { OneTreePerText ReadsScript }
{}

/// Parts to be clicked.
pub fn parts_are_read_exactly()
    ensures exact { ReadsExactly clicked_part ReadsPart }
    ensures one { OneTree ReadsPart }
    ensures text { OneTreePerText ReadsPart }
{}

/// Texts to be typed, with their fields.
pub fn typing_is_read_exactly()
    ensures exact { ReadsExactly typed_text ReadsType }
    ensures one { OneTree ReadsType }
    ensures text { OneTreePerText ReadsType }
{}

/// Texts of `send`.
pub fn messages_are_read_exactly()
    ensures exact { ReadsExactly sent_message ReadsMessage }
    ensures one { OneTree ReadsMessage }
    ensures text { OneTreePerText ReadsMessage }
{}

/// Texts of all of these kinds, from their bytes on.
pub fn texts_are_read_exactly()
    ensures { TextsAreReadExactly }
{
    texts_are_cut_exactly();
    expressions_are_read_exactly();
    lines_are_read_exactly();
    scripts_are_read_exactly();
    messages_are_read_exactly();
    parts_are_read_exactly();
    typing_is_read_exactly();
}
