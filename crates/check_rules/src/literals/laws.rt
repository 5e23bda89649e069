//! Laws of literals.
ghost use Rattle.check_rules.specs.Laws.{LiteralsAreRead, LiteralTokens, TextsAreRead, RowsAreRead};

/// What is read of a text is what the grammar of literals spells in the text's tokens, and nothing where it spells none.
pub fn literals_are_read()
    ensures marks { LiteralsAreRead }
    ensures tokens { LiteralTokens }
    ensures elements { TextsAreRead }
    ensures rows { RowsAreRead }
{}
