//! Laws of the words that are read in place of others. The functions do nothing: each stands for
//! its contract.

ghost use Rattle.zq_dialect.specs.FurtherLaws.{BoundsInward, FewBoundsStay, FurtherStay, LastPopped, NamesApart, PlacesRemoved, ScoresRemoved};
ghost use Rattle.zq_dialect.specs.Laws.{BoundsTakeTheSame, FewWordsStay, KeysUnlinked, OptionsRefused, OthersStay, PlacesTurned, ScoresAreRead, ScoresRanged, ScoresTurned, ValuesStay};

/// What each older name says in names of today. BYSCORE and REV are refused behind it, but as the
/// two words behind a LIMIT. Where it has too few words the name alone is another.
pub fn older_names()
    ensures places { PlacesTurned }
    ensures scores { ScoresRanged }
    ensures turned { ScoresTurned }
    ensures keys { KeysUnlinked }
    ensures options { OptionsRefused }
    ensures few { FewWordsStay }
{}

/// Of other commands than those with numbers or older names no word changes.
pub fn other_names()
    ensures { OthersStay }
{}

/// A score that is written in place of a text has the value that the text's digits and its exponent
/// write, and is read again.
pub fn values_stay()
    ensures values { ValuesStay }
    ensures scores { ScoresAreRead }
{}

/// A bound that is written in place of a text takes the same whole scores.
pub fn bounds_take_the_same()
    ensures { BoundsTakeTheSame }
{}

/// No name is both that of a further request and that of a command. ZREMRANGEBYSCORE removes the
/// range that ZRANGE takes by its words and BYSCORE, ZREMRANGEBYRANK the range that it takes by
/// these words alone, and ZPOPMAX pops as many pairs as ZPOPMIN: each is refused where that is. Of
/// all their words the bounds of ZREMRANGEBYSCORE alone are rewritten.
pub fn further_requests()
    ensures apart { NamesApart }
    ensures scores { ScoresRemoved }
    ensures places { PlacesRemoved }
    ensures pops { LastPopped }
    ensures bounds { BoundsInward }
    ensures few { FewBoundsStay }
    ensures others { FurtherStay }
{}
