//! Laws of replies.
ghost use Rattle.statement_replies.specs.Kinds.{RepliesHaveKinds};
ghost use Rattle.statement_replies.specs.StatementKinds.{ListedArraysStand, QueriesHaveTheirReplies, RepliesHaveStatementKinds};

/// A reply to a query over a database is of the kind that the names alone tell.
pub fn replies_have_kinds()
    ensures { RepliesHaveKinds }
{}

/// So is what a statement over a database is answered.
pub fn replies_have_statement_kinds()
    ensures { RepliesHaveStatementKinds }
{}

/// What a statement that is checked as a query is answered is the reply to that query.
pub fn queries_have_their_replies()
    ensures { QueriesHaveTheirReplies }
{}

/// An array that checking lets be listed or shown stands.
pub fn listed_arrays_stand()
    ensures { ListedArraysStand }
{}
