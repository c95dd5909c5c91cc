//! Laws of openings, over every list of bytes.

ghost use Rattle.zq_wire.specs.GreetingLaws as law;

/// A peer is welcome exactly where it is another site, is expected, and begins with one spelling:
/// its greeting in the form in which this site greeted, with a range of versions that has one in
/// common with this site's, this site's number of heaps and rule and, where this site has a secret,
/// a nonce and the answer that the peer owes. The greatest version that both have is spoken. Where
/// one of the two has a secret and the other has none, nobody is welcome.
pub fn welcome_exactly()
    ensures openly { law.WelcomeOpenly }
    ensures by_secret { law.WelcomeBySecret }
{}

/// What was said of a peer is not changed by bytes that follow: so it does not matter how its bytes
/// are cut. An answer that is due is the one with which the peer is welcome.
pub fn decided_stays()
    ensures welcome { law.WelcomeStays }
    ensures answer { law.AnswerStays }
    ensures refusal { law.RefusalStays }
{}

/// What one of two sites answers for is never what the other answers for: an answer that is sent
/// back is of no use.
pub fn answers_differ()
    ensures { law.ClaimsDiffer }
{}

/// In the new form and with a secret, nobody between two sites can lower a version, or change what
/// is told of a run: what is answered for is another message, and the peer is welcome only where
/// the two have the same tag.
pub fn changed_is_refused()
    ensures { law.ChangedCollides }
{}

/// The run that a peer is told of is the one that a side tells of.
pub fn runs_are_told()
    ensures { law.RunIsTold }
{}
