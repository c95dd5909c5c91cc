//! Laws of the grammar of requests and of streams of them. The functions do nothing: each stands
//! for its contract.

ghost use Rattle.zq_resp.specs.Laws.{BeginningIsPart, BreaksAlone, BreaksOnce, FoundIsSpelled, FoundStays, PartBeginsOne, PiecesGiveTheWhole, SpellingIsFound, SplitsOnce, WrongBeginsNone, WrongStays};

/// A request that is found at the front of a text is spelled there, and a spelling is found again,
/// whatever follows it.
pub fn found_is_spelled()
    ensures spelled { FoundIsSpelled }
    ensures found { SpellingIsFound }
{}

/// More bytes change neither a request that is found nor a fault, and a text with a fault begins no
/// request.
pub fn more_bytes_change_nothing()
    ensures found { FoundStays }
    ensures wrong { WrongStays }
    ensures none { WrongBeginsNone }
{}

/// What is less than a whole request is what begins one and is not yet all of it.
pub fn part_is_a_beginning()
    ensures begins { PartBeginsOne }
    ensures part { BeginningIsPart }
{}

/// A text gives its requests, and then its rest or its fault, in one way.
pub fn one_reading()
    ensures splits { SplitsOnce }
    ensures breaks { BreaksOnce }
    ensures apart { BreaksAlone }
{}

/// A text that is fed in pieces gives the requests, the rest and the fault of the whole text,
/// however it is cut. Where there was no memory it gives the first of the requests.
pub fn pieces_give_the_whole()
    ensures { PiecesGiveTheWhole }
{}
