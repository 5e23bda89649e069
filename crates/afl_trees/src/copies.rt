//! Copies of trees.
ghost use Rattle.std.specs.Prelude.{◌≡◌, ◌++◌, IfOk, OnOk};
ghost use Rattle.cell_values.specs.declared.name.Span.{Span};
ghost use Rattle.afl_trees.specs.Term.{create, renamed, call, to_terms};
ghost use Rattle.afl_trees.specs.Inner.View.{term_of};

use crate::{Node, Tree};
use cell_values::{Copies, Memory, Name};
use schema_grammar::SchemaText;

/// Copies of two parts of a tree.
fn both_copies<A: Copies + Drop, B: Copies + Drop>(a: &A, b: &B) -> Result<(A, B), Memory>
    ensures { IfOk result (λ both. (both.0 ≡ a.now) × (both.1 ≡ b.now)) }
{
    let a = a.copy()?;
    Ok((a, b.copy()?))
}

fn copy_create(name: &Name, schema: &SchemaText) -> Result<Node, Memory>
    ensures { IfOk result (λ node. (span : Span) → term_of span node ≡ create span name.now schema.now) }
{
    match both_copies(name, schema) {
        Ok((name, schema)) => Ok(Node::Create(name, schema)),
        Err(Memory) => Err(Memory),
    }
}

fn call_of(name: &Name, arguments: Vec<Tree>) -> Result<Node, Memory>
    ensures { IfOk result (λ node. (span : Span) → term_of span node ≡ call span name.now (to_terms arguments.items)) }
{
    match name.copy() {
        Ok(name) => Ok(Node::Call(name, arguments)),
        Err(Memory) => {
            drop(arguments);
            Err(Memory)
        }
    }
}

fn named_of(inner: Box<Tree>, name: &Name) -> Result<Node, Memory>
    ensures { IfOk result (λ node. (span : Span) → term_of span node ≡ renamed span inner.value name.now) }
{
    match name.copy() {
        Ok(name) => Ok(Node::As(inner, name)),
        Err(Memory) => {
            drop(inner);
            Err(Memory)
        }
    }
}

#[cycle(copy_tree)]
fn copy_box(tree: &Box<Tree>) -> Result<Box<Tree>, Memory>
    ensures { IfOk result (λ copy. copy.value ≡ tree.now.value) }
{
    Ok(Box::new(*Box::allocator(tree), copy_tree(tree)?)?)
}

#[cycle(copy_tree)]
fn copy_both(left: &Box<Tree>, right: &Box<Tree>) -> Result<(Box<Tree>, Box<Tree>), Memory>
    ensures { IfOk result (λ both. (both.0.value ≡ left.now.value) × (both.1.value ≡ right.now.value)) }
{
    match copy_box(left) {
        Ok(left) => match copy_box(right) {
            Ok(right) => Ok((left, right)),
            Err(Memory) => {
                drop(left);
                Err(Memory)
            }
        },
        Err(Memory) => Err(Memory),
    }
}

/// Adds copies of these trees.
#[cycle(copy_tree)]
fn push_copies(copies: &mut Vec<Tree>, trees: &Vec<Tree>) -> Result<(), Memory>
    ensures { OnOk result (copies.new.items ≡ copies.old.items ++ trees.now.items) }
{
    for tree in trees.as_slice() {
        copies.push(copy_tree(tree)?)?;
    }
    Ok(())
}

#[cycle(copy_tree)]
fn copy_trees(trees: &Vec<Tree>) -> Result<Vec<Tree>, Memory>
    ensures { IfOk result (λ copies. copies.items ≡ trees.now.items) }
{
    let mut copies = Vec::with_capacity(*trees.allocator(), trees.len())?;
    match push_copies(&mut copies, trees) {
        Ok(()) => Ok(copies),
        Err(Memory) => {
            drop(copies);
            Err(Memory)
        }
    }
}

#[cycle(copy_tree)]
fn copy_node(node: &Node) -> Result<Node, Memory>
    ensures { IfOk result (λ copy. (span : Span) → term_of span copy ≡ term_of span node.now) }
{
    match node {
        Node::Create(name, schema) => copy_create(name, schema),
        Node::Number(number) => Ok(Node::Number(*number)),
        Node::Text(text) => Ok(Node::Text(text.copy()?)),
        Node::Truth(truth) => Ok(Node::Truth(*truth)),
        Node::Null => Ok(Node::Null),
        Node::Missing(code) => Ok(Node::Missing(*code)),
        Node::Ref(name) => Ok(Node::Ref(name.copy()?)),
        Node::Version(name, number) => Ok(Node::Version(name.copy()?, *number)),
        Node::Call(name, arguments) => call_of(name, copy_trees(arguments)?),
        Node::Schema(schema) => Ok(Node::Schema(schema.copy()?)),
        Node::Star => Ok(Node::Star),
        Node::As(inner, name) => named_of(copy_box(inner)?, name),
        Node::Not(inner) => Ok(Node::Not(copy_box(inner)?)),
        Node::Minus(inner) => Ok(Node::Minus(copy_box(inner)?)),
        Node::Binary(op, left, right) => match copy_both(left, right) {
            Ok((left, right)) => Ok(Node::Binary(*op, left, right)),
            Err(Memory) => Err(Memory),
        },
        Node::Group(inner) => Ok(Node::Group(copy_box(inner)?)),
    }
}

#[cycle(copy_tree)]
fn copy_tree(tree: &Tree) -> Result<Tree, Memory>
    ensures { IfOk result (λ copy. copy ≡ tree.now) }
{
    Ok(Tree {
        span: tree.span,
        node: copy_node(&tree.node)?,
    })
}

impl Tree {
    /// An equal tree, with the same allocator.
    pub fn copy(&self) -> Result<Tree, Memory>
        ensures { IfOk result (λ copy. copy ≡ self.now) }
    {
        copy_tree(self)
    }
}

impl Copies for Tree {
    fn copy(&self) -> Result<Tree, Memory> {
        self.copy()
    }
}
