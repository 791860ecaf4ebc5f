//! What holds of all marks and all bytes, as contracts of functions that do nothing.
ghost use Rattle.indicium.specs.Laws.{ReadsBack, SpellsBack, OneSpelling, OneReading};

/// A mark that is written under a key is read back, with its code; and bytes that read as a mark and have its
/// code under the key are what is written for that mark.
pub fn round_trip()
    ensures reads_back { ReadsBack }
    ensures spells_back { SpellsBack }
{}

/// No two marks have one spelling under a key, whatever the code; and no bytes read as two marks.
pub fn one_spelling()
    ensures one_spelling { OneSpelling }
    ensures one_reading { OneReading }
{}
