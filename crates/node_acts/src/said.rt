//! What a node says where a call of it was done.
ghost use Rattle.std.specs.Prelude.{◌≡◌};
ghost use Rattle.node_acts.specs.Said as said;

use bench_base::bytes::Note;
use bench_base::events::Reply;
use bench_base::numbers::DevNo;

/// A mark that a device gives out: its device, its piece, and the mark.
#[derive(Clone, Copy)]
pub struct Released {
    pub device: DevNo,
    pub piece: u32,
    pub mark: [u8; 64],
}

/// A mark that the host prints: its job, and the mark.
#[derive(Clone, Copy)]
pub struct Printed {
    pub job: u32,
    pub mark: [u8; 64],
}

/// A mark that leaves a node.
#[derive(Clone, Copy)]
pub enum GivenOut {
    Released(Released),
    Printed(Printed),
}

/// What a node says where a call of it was done: its reply, a mark that leaves it, and a message that it sends.
#[derive(Clone, Copy)]
pub struct Said {
    pub reply: Reply,
    pub given: Option<GivenOut>,
    pub sent: Option<Note>,
}

impl Said {
    /// A reply alone.
    pub fn of(reply: Reply) -> Said
        ensures { result ≡ said.replies reply }
    {
        Said {
            reply,
            given: None,
            sent: None,
        }
    }

    /// A reply, and a mark that leaves the node.
    pub fn giving(reply: Reply, given: GivenOut) -> Said
        ensures { result ≡ said.gives reply given }
    {
        Said {
            reply,
            given: Some(given),
            sent: None,
        }
    }

    /// A reply, and a message that is sent.
    pub fn sending(reply: Reply, note: Note) -> Said
        ensures { result ≡ said.sends reply note }
    {
        Said {
            reply,
            given: None,
            sent: Some(note),
        }
    }
}
