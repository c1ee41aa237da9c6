//! That a text is cut as the function of the specs says.

ghost use Rattle.ht_lex.specs.Cutting.{spans_of, CutsExactly};

/// The function gives the places of a text's tokens just where the text is tokens all through.
pub fn texts_are_cut_exactly()
    ensures { CutsExactly spans_of }
{}
