//! The stack of open nodes.
ghost use Rattle.std.specs.Prelude.{◌≡◌, [], ◌∷◌, ◌+◌, ◌<◌, ◌^◌, OnOk, IfOk, MatchOption, length};
ghost use Rattle.afl_trees.specs.Grammar.{height};
ghost use Rattle.afl_parser.specs.Inner.Machine.{wanted, want, ends, close, frame_height};

use crate::grown::{Arguments, Grown};
use crate::lines::{across, right_line, span_of};
use afl_trees::{BinaryOp, Tree};
use cell_values::{Memory, Name, Span};
use schema_grammar::ShapeState;
use std::alloc::Global;
use std::marker::Model;

/// A node whose last child is still to come.
#[derive(Drop)]
pub(crate) enum Frame {
    Group(Span),
    Not(Span),
    Minus(Span),
    Left(BinaryOp, Grown),
    Call(Name, Span, Arguments),
}

/// Where the reader stands below the open nodes.
#[derive(Drop)]
pub(crate) enum Focus {
    /// At the start of the statement.
    Start,
    /// Behind `create`.
    Array(Span),
    /// Behind `create array`.
    Title(Span),
    /// In the schema of `create array`.
    NewShape(Span, Name, ShapeState),
    /// Behind `create array`, a name and a schema.
    Made(Tree),
    /// Before an operand.
    Want,
    /// Behind the bracket of a call.
    First(Name, Span),
    /// Behind a tree that may go on.
    Have(Grown),
    /// Behind a name and `@`.
    At(Name, Span),
    /// Behind `as`.
    Naming(Grown),
    /// In a schema that is an argument.
    Shape(ShapeState),
}

/// The open nodes. Contracts see them as a list, the innermost first.
#[derive(Drop)]
pub(crate) struct Stack {
    frames: Vec<Frame>,
}

impl Model for Stack {
    ghost use Rattle.std.specs.Prelude.{List, reverse};
    ghost use Rattle.afl_parser.specs.declared.frame.Frame.{Frame};

    ghost Value = { List Frame };

    ghost use Rattle.afl_parser.specs.contracts.frame.Frame as frame;
    ghost use Rattle.std.specs.Coded.{codes};

    ghost coded = { Prim.hlevel (codes, frame.the_row.coded) };

    ghost view = { λ s. reverse s.frames.items };
}

impl Stack {
    pub(crate) fn new(alloc: Global) -> Stack
        ensures { result ≡ [] }
    {
        Stack {
            frames: Vec::new(alloc),
        }
    }

    pub(crate) fn len(&self) -> usize
        ensures { result ≡ length self.now }
    {
        self.frames.len()
    }

    pub(crate) fn push(&mut self, frame: Frame) -> Result<(), Memory>
        ensures { OnOk result (self.new ≡ frame ∷ self.old) }
    {
        self.frames.push(frame)?;
        Ok(())
    }

    /// The line that the innermost open node wants of its last child.
    pub(crate) fn want(&self) -> u8
        ensures { result ≡ want self.now }
    {
        match self.frames.last() {
            None => 1,
            Some(frame) => frame.wanted(),
        }
    }

    pub(crate) fn pop(&mut self) -> Option<Frame>
        ensures { MatchOption result ((self.old ≡ []) × (self.new ≡ [])) (λ frame. self.old ≡ frame ∷ self.new) }
    {
        self.frames.pop()
    }
}

impl Frame {
    /// The line that the node wants of its last child.
    pub(crate) fn wanted(&self) -> u8
        ensures { result ≡ wanted self.now }
    {
        match self {
            Frame::Group(_) => 1,
            Frame::Not(_) => 3,
            Frame::Minus(_) => 7,
            Frame::Left(op, _) => right_line(*op),
            Frame::Call(_, _, _) => 0,
        }
    }

    /// Whether the node ends before a node of this line.
    pub(crate) fn ends(&self, line: u8) -> bool
        ensures { result ≡ ends line self.now }
    {
        match self {
            Frame::Group(_) => false,
            Frame::Not(_) => line < 3,
            Frame::Minus(_) => line < 7,
            Frame::Left(op, _) => line < right_line(*op),
            Frame::Call(_, _, _) => false,
        }
    }

    /// The node with its last child, where no bracket has to follow.
    pub(crate) fn close(self, alloc: Global, tree: Grown) -> Result<Grown, Memory>
        requires frame { frame_height self + 1 < 2 ^ 64 }
        requires tree { height tree + 1 < 2 ^ 64 }
        ensures { IfOk result (λ t. t ≡ close self tree) }
    {
        let end = span_of(tree.tree());
        match self {
            Frame::Not(start) => Grown::opposite(alloc, across(start, end), tree),
            Frame::Minus(start) => Grown::negative(alloc, across(start, end), tree),
            Frame::Left(op, left) => {
                let span = across(span_of(left.tree()), end);
                Grown::binary(alloc, span, op, left, tree)
            }
            Frame::Group(_) | Frame::Call(_, _, _) => Ok(tree),
        }
    }
}
