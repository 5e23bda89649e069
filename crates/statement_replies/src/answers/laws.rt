//! Laws of the forms of statements.
ghost use Rattle.statement_replies.specs.Forms.{ChangesReplyRefusals, FormsAreSaid, FormsStay};

/// Whether a statement is a query, a change or a listing is told by its tree alone, so it is the same over all stored arrays. Where
/// it is a change, a reply alone refuses it.
pub fn forms_are_said()
    ensures said { FormsAreSaid }
    ensures stay { FormsStay }
    ensures refused { ChangesReplyRefusals }
{}
