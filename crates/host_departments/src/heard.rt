//! What is heard of a step: its reply, and the message that it sent.
ghost use Rattle.std.specs.Prelude.{◌≡◌, ℕ, IfSome, IfNone};
ghost use Rattle.node_turns.specs.Turns.{sent_in};
ghost use Rattle.psd_wire.specs.Grammar.{read};
ghost use Rattle.host_departments.specs.Heard.{IsTaken, debit_postage};

use crate::row::MOST_POSTAGE;
use bench_base::bytes::Note;
use bench_base::events::Reply;
use bench_base::ledger::{Commit, Entry};
use line_extensions::Hear;
use node_acts::Said;
use node_turns::Tell;
use psd_wire::{Message, read_message};

/// The reply of a step, and the message that it sent, if it sent one.
#[derive(Drop)]
pub struct Heard {
    pub reply: Reply,
    pub sent: Option<Note>,
}

impl Tell for Heard {
    ghost IsOf = { λ told turn. (told.reply ≡ turn.reply) × (told.sent ≡ sent_in turn.entries) };

    fn silent(reply: Reply) -> Heard {
        Heard { reply, sent: None }
    }

    fn one(reply: Reply, entry: Entry) -> Heard {
        let sent = match &entry {
            Entry::Sent(note) => Some(*note),
            _ => None,
        };
        Heard { reply, sent }
    }

    fn done(_commit: Option<Commit>, said: &Said) -> Heard {
        Heard {
            reply: said.reply,
            sent: said.sent,
        }
    }
}

impl Hear for Heard {
    ghost reply_of = { λ told. told.reply };

    ghost tells = { λ told turn is. is.0 };

    fn reply(&self) -> &Reply {
        &self.reply
    }
}

// The postage of a message that asks a device for a mark.
fn postage_in(note: &Note) -> Option<u32>
    ensures { result ≡ debit_postage (read note.now) }
{
    match read_message(note.as_slice()) {
        Ok(Message::Debit(debit)) => Some(debit.postage),
        Ok(Message::Request(_) | Message::Reply(_) | Message::Done(_) | Message::Release(_)) =>
            None,
        Err(_) => None,
    }
}

/// The postage of the message that was sent for a job; None if there is no such message.
pub(crate) fn postage_taken(told: &Heard, job: u32) -> Option<u32>
    ensures found { IfSome result (λ p. IsTaken job told.now.reply told.now.sent p) }
    ensures none { IfNone result ((p : ℕ) → IsTaken job told.now.reply told.now.sent p → ⊥) }
{
    if !told.reply.is_sent_debit() {
        return None;
    }
    let Some(note) = &told.sent else {
        return None;
    };
    let Some(postage) = postage_in(note) else {
        return None;
    };
    if 1 <= job && 1 <= postage && postage <= MOST_POSTAGE {
        return Some(postage);
    }
    None
}
