//! Why something happened, in words.

ghost use Rattle.std.specs.Prelude.{◌≡◌};
ghost use Rattle.zq_site.specs.Standings.{words_of_reason};
ghost use Rattle.zq_site.specs.Words.{is_memory, words_of_node, words_of_unheard};

use crate::loss::Loss;
use crate::notice::Reason;
use crate::standing::Ending;
use std::fmt;
use zq_delta::OpFault;
use zq_links::FrameFault;
use zq_merge::StateFault;
use zq_node::NodeFault;
use zq_peers::Unheard;
use zq_wire::Refusal;

/// Why something happened to a site.
#[derive(Clone, Copy, Debug)]
pub enum Why {
    /// What does not agree between this site and a peer.
    Refusal(Refusal),
    /// What a peer says that lets this site go.
    Reason(Reason),
    /// How the opening of a link ended.
    Ending(Ending),
    /// Why a link is down.
    Loss(Loss),
    /// Why a frame was not heard.
    Unheard(Unheard),
    /// A link to another run of the peer's number is up.
    OtherRun,
    /// Another run used the peer's number.
    Reused,
    /// Another run used this site's number.
    Used,
    /// A peer knows of another run of this site's number.
    Known,
    /// A peer lacks something that this site made.
    Lacking,
}

impl fmt::Display for Why {
    ghost use Rattle.std.specs.Prelude.{Some};
    ghost use Rattle.zq_site.specs.Words.{words_of_why};

    ghost output = { λ why. Some (words_of_why why) };

    /// Why, on one line.
    fn fmt<W: fmt::Write>(&self, f: &mut fmt::Formatter<W>) -> fmt::Result {
        match self {
            Why::Refusal(refusal) => write!(f, "{refusal}"),
            Why::Reason(reason) => f.write_str(reason_words(*reason)),
            Why::Ending(ending) => write!(f, "{ending}"),
            Why::Loss(loss) => write!(f, "{loss}"),
            Why::Unheard(why) => f.write_str(unheard_words(*why)),
            Why::OtherRun => f.write_str("another run of its number is linked"),
            Why::Reused => f.write_str("another run used its number"),
            Why::Used => f.write_str("another run used this number"),
            Why::Known => f.write_str("the peer knows another run of this number"),
            Why::Lacking => f.write_str("a peer lacks something that this site made"),
        }
    }
}

/// Why a peer lets this site go, in words.
fn reason_words(reason: Reason) -> &'static str
    ensures { result.now ≡ words_of_reason reason }
{
    match reason {
        Reason::Unexpected => "it does not expect this site",
        Reason::Secret => "the two secrets differ",
    }
}

/// Why a frame was not heard, in words.
fn unheard_words(why: Unheard) -> &'static str
    ensures { result.now ≡ words_of_unheard why }
{
    match why {
        Unheard::Unread(fault) if wants_memory(fault) => "there was no memory for it",
        Unheard::Unread(_) => "it is no frame",
        Unheard::Refused(fault) => refused_words(fault),
    }
}

/// Whether memory was refused for the frame, or for a part of it.
fn wants_memory(fault: FrameFault) -> bool
    ensures { result ≡ is_memory fault }
{
    matches!(
        fault,
        FrameFault::NoMemory
            | FrameFault::Op(_, OpFault::NoMemory)
            | FrameFault::State(StateFault::NoMemory)
    )
}

/// Why a node refuses a frame, in words.
fn refused_words(fault: NodeFault) -> &'static str
    ensures { result.now ≡ words_of_node fault }
{
    match fault {
        NodeFault::WrongHeap => "it names a heap that is not this site's",
        NodeFault::WrongRule => "it has another rule",
        NodeFault::Worn => "a number is at its last value",
        NodeFault::NoMemory => "there was no memory for it",
    }
}
