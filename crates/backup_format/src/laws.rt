//! Laws of backups.
ghost use Rattle.backup_format.specs.Laws.{PiecesHaveParts, VersionsHaveParts, ArraysHaveParts, BackupsHaveParts, ReadIsSpelled, SpelledIsRead};
ghost use Rattle.backup_format.specs.Worked.{EmptyBackup, EmptyIsRead, ChangedText, ChangedDigest, CutDigest, OneByteMore};

/// The backup of a database of no arrays, and four texts that differ from it in a byte.
#[tactic(auto, using(crate::proofs::EmptyWorked::empty_backup, crate::proofs::EmptyWorked::empty_is_read, crate::proofs::EmptyWorked::changed_text, crate::proofs::EmptyWorked::changed_digest, crate::proofs::EmptyWorked::cut_digest, crate::proofs::EmptyWorked::one_byte_more))]
pub fn worked_backups()
    ensures backup { EmptyBackup }
    ensures read { EmptyIsRead }
    ensures text { ChangedText }
    ensures digest { ChangedDigest }
    ensures cut { CutDigest }
    ensures more { OneByteMore }
{}

/// The bytes of a piece, a version, an array and all arrays are what stands before their parts, and
/// the parts.
#[tactic(auto, using(crate::proofs::Parts::pieces_have_parts, crate::proofs::Parts::versions_have_parts, crate::proofs::Parts::arrays_have_parts, crate::proofs::Parts::backups_have_parts))]
pub fn backups_have_parts()
    ensures pieces { PiecesHaveParts }
    ensures versions { VersionsHaveParts }
    ensures arrays { ArraysHaveParts }
    ensures backups { BackupsHaveParts }
{}

/// What is read is spelled so and passes the tests, and what passes them and is spelled so is read.
#[tactic(auto, using(crate::proofs::ItemLaws::read_is_spelled, crate::proofs::ItemLaws::spelled_is_read))]
pub fn readings_are_spelled()
    ensures read { ReadIsSpelled }
    ensures spelled { SpelledIsRead }
{}
