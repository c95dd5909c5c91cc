//! What a frame is about.
ghost use Rattle.std.specs.Prelude.{◌≡◌};
ghost use Rattle.zq_wire.specs.Topic.{heap_of, same_topic};

/// What a frame to a peer is about. Of each topic one frame waits at most.
#[derive(Clone, Copy, Debug, PartialEq, Eq)]
pub enum Topic {
    /// What this site has of this heap: a Have.
    Have(u8),
    /// What the peer lacks of this heap: Ops, or a State.
    Answer(u8),
}

impl Topic {
    /// The heap.
    pub fn heap(self) -> u8
        ensures { result ≡ heap_of self }
    {
        match self {
            Topic::Have(heap) | Topic::Answer(heap) => heap,
        }
    }

    /// Whether both are one topic.
    pub(crate) fn is(self, other: Topic) -> bool
        ensures { result ≡ same_topic self other }
    {
        match (self, other) {
            (Topic::Have(heap), Topic::Have(another)) => heap == another,
            (Topic::Answer(heap), Topic::Answer(another)) => heap == another,
            _ => false,
        }
    }
}
