//! Where a query stands, without the brackets around it.
ghost use Rattle.std.specs.Prelude.{◌≡◌};
ghost use Rattle.afl_types.specs.Content.{content_span};

use afl_trees::{Node, Tree};
use cell_values::Span;

/// The place of a tree, or of what stands in its brackets.
pub(crate) fn content_span(tree: &Tree) -> Span
    ensures { result ≡ content_span tree.now }
{
    match &tree.node {
        Node::Group(inner) => content_span(inner),
        _ => tree.span,
    }
}
