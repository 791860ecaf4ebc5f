//! What holds of all messages and all bytes, as contracts of functions that do nothing.
ghost use Rattle.psd_wire.specs.Laws.{ReadsBack, SpellsBack, SpellsBackUncoded, WritesCode, OneSpelling, OneReading, ReadsBody, OneBody};

/// A message that is written is read back, with its code. Bytes that read as a message and have its code, if it needs one,
/// are what is written for that message. A body without its code is enough to know the message by.
pub fn round_trip()
    ensures reads_back { ReadsBack }
    ensures writes_code { WritesCode }
    ensures spells_back { SpellsBack }
    ensures uncoded { SpellsBackUncoded }
    ensures reads_body { ReadsBody }
{}

/// No two messages have one spelling under a key, or one body; and no bytes read as two messages.
pub fn one_spelling()
    ensures one_spelling { OneSpelling }
    ensures one_reading { OneReading }
    ensures one_body { OneBody }
{}
