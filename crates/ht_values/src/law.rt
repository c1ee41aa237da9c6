//! What the definitions of values promise.

ghost use Rattle.ht_values.specs.Laws.{DivAndModDivide, NumeralsReadBack, PlacesAreFirst, TextsAreOrdered};
ghost use Rattle.ht_values.specs.Laws.{ValuesAreOrdered};

/// The number of a number's numeral is that number.
pub fn numerals_read_back()
    ensures { NumeralsReadBack }
{}

/// Quotient and remainder make the dividend, and the remainder has the dividend's sign.
pub fn div_and_mod_divide()
    ensures { DivAndModDivide }
{}

/// Texts are in a total order, in which those are equal that are the same.
pub fn texts_are_ordered()
    ensures { TextsAreOrdered }
{}

/// The order of values agrees with their equality, and is total among numerals and among other texts.
pub fn values_are_ordered()
    ensures { ValuesAreOrdered }
{}

/// The place of a run is the first at which its folded bytes stand.
pub fn places_are_first()
    ensures { PlacesAreFirst }
{}
