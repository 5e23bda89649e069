//! Trees and argument lists with their heights.
ghost use Rattle.std.specs.Prelude.{◌≡◌, ◌+◌, ◌<◌, ◌≤◌, ◌^◌, [], ◌∷◌, ◌++◌, IfOk};
ghost use Rattle.afl_trees.specs.Term.{call, renamed, opposite, negative, group, binary, to_terms, no_terms};
ghost use Rattle.afl_trees.specs.Grammar.{height, heights};

use afl_trees::{BinaryOp, Node, Tree};
use cell_values::{List, Memory, Name, Span};
use std::alloc::Global;
use std::marker::Model;

/// A tree that knows its height.
#[derive(Drop)]
pub(crate) struct Grown {
    tree: Tree,
    depth: usize,
}

impl Model for Grown {
    ghost use Rattle.std.specs.Prelude.{◌≡◌};
    ghost use Rattle.afl_trees.specs.Term.{Term};
    ghost use Rattle.afl_trees.specs.Lemmas.TermCode.{term_code};
    ghost use Rattle.afl_trees.specs.Grammar.{height};

    ghost Value = { Term };

    ghost coded = { term_code };

    ghost view = { λ g. g.tree };

    ghost invariant = { λ g. g.depth ≡ height g.tree };
}

/// Arguments that know the height of the highest.
#[derive(Drop)]
pub(crate) struct Arguments {
    trees: List<Tree>,
    depth: usize,
}

impl Model for Arguments {
    ghost use Rattle.std.specs.Prelude.{◌≡◌, List};
    ghost use Rattle.std.specs.Coded.{coded_list};
    ghost use Rattle.afl_trees.specs.Term.{Term, to_terms};
    ghost use Rattle.afl_trees.specs.Lemmas.TermCode.{term_code};
    ghost use Rattle.afl_trees.specs.Grammar.{heights};

    ghost Value = { List Term };

    ghost coded = { coded_list term_code };

    ghost view = { λ g. g.trees };

    ghost invariant = { λ g. g.depth ≡ heights (to_terms g.trees) };
}

/// A value in a box, and a part beside it.
fn boxed_with<A: Drop, P: Drop>(alloc: Global, value: A, part: P) -> Result<(Box<A>, P), Memory>
    ensures { IfOk result (λ both. (both.0.value ≡ value) × (both.1 ≡ part)) }
{
    match Box::new(alloc, value) {
        Ok(value) => Ok((value, part)),
        Err(_) => {
            drop(part);
            Err(Memory)
        }
    }
}

/// Two values in boxes.
fn both_boxed<A: Drop>(alloc: Global, left: A, right: A) -> Result<(Box<A>, Box<A>), Memory>
    ensures { IfOk result (λ both. (both.0.value ≡ left) × (both.1.value ≡ right)) }
{
    match boxed_with(alloc, left, right) {
        Ok((left, right)) => boxed_beside(alloc, left, right),
        Err(Memory) => Err(Memory),
    }
}

/// A box, and a second value in a box.
fn boxed_beside<A: Drop>(alloc: Global, left: Box<A>, right: A) -> Result<(Box<A>, Box<A>), Memory>
    ensures { IfOk result (λ both. (both.0.value ≡ left.value) × (both.1.value ≡ right)) }
{
    match boxed_with(alloc, right, left) {
        Ok((right, left)) => Ok((left, right)),
        Err(Memory) => Err(Memory),
    }
}

/// The list with one item more.
fn with_item<T: Drop>(list: List<T>, item: T) -> Result<List<T>, Memory>
    ensures { IfOk result (λ all. all ≡ list ++ item ∷ []) }
{
    let mut list = list;
    match list.push(item) {
        Ok(()) => Ok(list),
        Err(Memory) => {
            drop(list);
            Err(Memory)
        }
    }
}

impl Grown {
    /// A tree without parts.
    pub(crate) fn leaf(tree: Tree) -> Grown
        requires { height tree ≡ 1 }
        ensures { result ≡ tree }
    {
        Grown { tree, depth: 1 }
    }

    pub(crate) fn empty_call(alloc: Global, span: Span, name: Name) -> Grown
        ensures { result ≡ call span name no_terms }
    {
        let node = Node::Call(name, Vec::new(alloc));
        Grown {
            tree: Tree { span, node },
            depth: 1,
        }
    }

    pub(crate) fn renamed(alloc: Global, span: Span, a: Grown, name: Name) -> Result<Grown, Memory>
        requires { height a + 1 < 2 ^ 64 }
        ensures { IfOk result (λ t. t ≡ renamed span a name) }
    {
        let Grown { tree, depth } = a;
        match boxed_with(alloc, tree, name) {
            Ok((tree, name)) => {
                let node = Node::As(tree, name);
                Ok(Grown {
                    tree: Tree { span, node },
                    depth: depth + 1,
                })
            }
            Err(Memory) => Err(Memory),
        }
    }

    pub(crate) fn opposite(alloc: Global, span: Span, a: Grown) -> Result<Grown, Memory>
        requires { height a + 1 < 2 ^ 64 }
        ensures { IfOk result (λ t. t ≡ opposite span a) }
    {
        let Grown { tree, depth } = a;
        let node = Node::Not(Box::new(alloc, tree)?);
        Ok(Grown {
            tree: Tree { span, node },
            depth: depth + 1,
        })
    }

    pub(crate) fn negative(alloc: Global, span: Span, a: Grown) -> Result<Grown, Memory>
        requires { height a + 1 < 2 ^ 64 }
        ensures { IfOk result (λ t. t ≡ negative span a) }
    {
        let Grown { tree, depth } = a;
        let node = Node::Minus(Box::new(alloc, tree)?);
        Ok(Grown {
            tree: Tree { span, node },
            depth: depth + 1,
        })
    }

    pub(crate) fn group(alloc: Global, span: Span, a: Grown) -> Result<Grown, Memory>
        requires { height a + 1 < 2 ^ 64 }
        ensures { IfOk result (λ t. t ≡ group span a) }
    {
        let Grown { tree, depth } = a;
        let node = Node::Group(Box::new(alloc, tree)?);
        Ok(Grown {
            tree: Tree { span, node },
            depth: depth + 1,
        })
    }

    pub(crate) fn binary(
        alloc: Global,
        span: Span,
        op: BinaryOp,
        a: Grown,
        b: Grown,
    ) -> Result<Grown, Memory>
        requires left { height a + 1 < 2 ^ 64 }
        requires right { height b + 1 < 2 ^ 64 }
        ensures { IfOk result (λ t. t ≡ binary span op a b) }
    {
        let depth = a.depth.max(b.depth) + 1;
        match both_boxed(alloc, a.into_tree(), b.into_tree()) {
            Ok((left, right)) => {
                let node = Node::Binary(op, left, right);
                Ok(Grown {
                    tree: Tree { span, node },
                    depth,
                })
            }
            Err(Memory) => Err(Memory),
        }
    }

    pub(crate) fn call(span: Span, name: Name, arguments: Arguments) -> Grown
        requires { heights (to_terms arguments) + 1 < 2 ^ 64 }
        ensures { result ≡ call span name (to_terms arguments) }
    {
        let Arguments { trees, depth } = arguments;
        let node = Node::Call(name, trees.into_vec());
        Grown {
            tree: Tree { span, node },
            depth: depth + 1,
        }
    }

    pub(crate) fn height(&self) -> usize
        ensures { result ≡ height self.now }
    {
        self.depth
    }

    pub(crate) fn tree(&self) -> &Tree
        ensures { result.now ≡ self.now }
    {
        &self.tree
    }

    pub(crate) fn into_tree(self) -> Tree
        ensures { result ≡ self }
    {
        let Grown { tree, depth: _ } = self;
        tree
    }
}

impl Arguments {
    pub(crate) fn none(alloc: Global) -> Arguments
        ensures { result ≡ [] }
    {
        Arguments {
            trees: List::new(alloc),
            depth: 0,
        }
    }

    /// The arguments with one more.
    #[tactic(auto, using(crate::proofs::Heights::heights_of_more))]
    pub(crate) fn with(self, argument: Grown) -> Result<Arguments, Memory>
        ensures { IfOk result (λ all. all ≡ self ++ argument ∷ []) }
    {
        let Arguments { trees, depth } = self;
        let depth = depth.max(argument.depth);
        match with_item(trees, argument.into_tree()) {
            Ok(trees) => Ok(Arguments { trees, depth }),
            Err(Memory) => Err(Memory),
        }
    }
}
