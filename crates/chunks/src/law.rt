//! What the definitions of pieces promise.

ghost use Rattle.chunks.specs.Laws.{NoneDeleted, OneList, PartsCut, PieceIsPut, PiecesStand, PutReadsBack};

/// What stands between the delimiters is the one list whose join is the text.
pub fn one_list()
    ensures { OneList }
{}

/// The pieces are what stands at their places.
pub fn pieces_stand()
    ensures { PiecesStand }
{}

/// A part that is found cuts the text in three.
pub fn parts_cut()
    ensures { PartsCut }
{}

/// A delete that finds nothing changes nothing.
pub fn none_deleted()
    ensures { NoneDeleted }
{}

/// A piece that is put into one piece stands there, and the other pieces are as they were.
pub fn piece_is_put()
    ensures { PieceIsPut }
{}

/// What is put into one piece is read there.
pub fn put_reads_back()
    ensures { PutReadsBack }
{}
