//! Laws of the grammar.
ghost use Rattle.afl_parser.specs.Outcome.{HasTreeOrStop, HasNotBoth, HasOneTree, HasOneStop};

use afl_lexer::texts_have_tokens_or_stop;

/// Each text derives a tree or stops to be the front of a statement, never both, and has only one of these.
pub fn texts_have_tree_or_stop()
    ensures tree_or_stop { HasTreeOrStop }
    ensures not_both { HasNotBoth }
    ensures one_tree { HasOneTree }
    ensures one_stop { HasOneStop }
{
    texts_have_tokens_or_stop();
}
