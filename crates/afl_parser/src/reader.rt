//! The reader: one turn a token.
ghost use Rattle.std.specs.Prelude.{◌≡◌, ℕ, Some, None, ◌+◌, ◌<◌, ◌≤◌, ◌^◌, List, [], ◌∷◌, ◌++◌, length, nat_lt, IfOk};
ghost use Rattle.afl_trees.specs.Term.{renamed, group, call, to_terms};
ghost use Rattle.afl_trees.specs.Grammar.{height, heights};
ghost use Rattle.afl_lexer.specs.Lexemes.{what_of, lexeme_of};
ghost use Rattle.afl_lexer.specs.Tokens.{IsTokenOf};
ghost use Rattle.schema_grammar.specs.Inner.Reading.{shape_turn};
ghost use Rattle.afl_trees.specs.Grammar.{op_of};
ghost use Rattle.afl_parser.specs.Inner.Machine.{Turn, Go, Stop, shaped, shallow, settle, leaf_of, opening, begin, start};
ghost use Rattle.afl_parser.specs.Inner.Machine.{array_word, title, made, first, operated, named, opened, dated, date, closed};
ghost use Rattle.afl_parser.specs.Inner.Machine.{separated, joined, extend, name_it, turn, whole, finished, FitsBelow, Fits};
ghost use Rattle.afl_parser.specs.Inner.Reply.{Gives, GivesWhole};

use crate::frame::{Focus, Frame, Stack};
use crate::grown::{Arguments, Grown};
use crate::lines::{across, left_line, operator_line, reference_of, span_of, top_line};
use afl_lexer::{Symbol, Token, TokenKind, Word, name_value, text_value};
use afl_trees::{BinaryOp, Node, StopKind, Tree};
use cell_values::{Code, Memory, Name, Span};
use schema_grammar::{ShapeState, ShapeStep, read_shape};
use std::alloc::Global;

/// The depth that a statement may have.
const DEPTH: usize = 128;

/// What is open, and where the reader stands.
#[derive(Drop)]
pub(crate) struct Reader {
    pub(crate) stack: Stack,
    pub(crate) focus: Focus,
}

/// Why a token was not read.
#[derive(Clone, Copy)]
pub(crate) enum Fault {
    Stop(StopKind),
    Memory,
}

impl From<Memory> for Fault {
    ghost use Rattle.std.specs.Prelude.{◌≡◌};
    ghost use Rattle.afl_parser.specs.declared.reader.Fault.TheVariants as fault;

    ghost from_gives = { λ _ e. e ≡ fault.Memory };

    fn from(_: Memory) -> Fault {
        Fault::Memory
    }
}

/// The reader's end, where what is open is let go.
fn stop(stack: Stack, kind: StopKind) -> Result<Reader, Fault>
    ensures { Gives result (Stop kind) }
{
    drop(stack);
    Err(Fault::Stop(kind))
}

/// The reader's end behind a tree.
fn stop_behind(stack: Stack, tree: Grown, kind: StopKind) -> Result<Reader, Fault>
    ensures { Gives result (Stop kind) }
{
    drop(tree);
    stop(stack, kind)
}

/// The reader's end for want of memory.
fn give_up(stack: Stack) -> Result<Reader, Fault>
    ensures { (turn : Turn) → Gives result turn }
{
    drop(stack);
    Err(Fault::Memory)
}

/// The tree that one token is.
fn leaf_at(alloc: Global, text: &[u8], token: Token) -> Result<Option<Tree>, Memory>
    requires { IsTokenOf text.now token }
    ensures { IfOk result (λ leaf. leaf ≡ leaf_of token.span (lexeme_of text.now token).what) }
{
    let node = match token.kind {
        TokenKind::Name => Node::Ref(name_value(alloc, text, &token)?),
        TokenKind::Int(n) => Node::Number(n),
        TokenKind::Text => Node::Text(text_value(alloc, text, &token)?),
        TokenKind::Code(n) => match Code::new(n) {
            Some(code) => Node::Missing(code),
            None => Node::Null,
        },
        TokenKind::Word(Word::True) => Node::Truth(true),
        TokenKind::Word(Word::False) => Node::Truth(false),
        TokenKind::Word(Word::Null) => Node::Null,
        TokenKind::Word(_) | TokenKind::Symbol(_) => return Ok(None),
    };
    Ok(Some(Tree {
        span: token.span,
        node,
    }))
}

/// Goes below what is open to a tree that is at least one node deep.
fn enter(stack: Stack, focus: Focus) -> Result<Reader, Fault>
    ensures { Gives result (shallow (nat_lt (length stack) 128) (Go stack focus)) }
{
    if stack.len() < DEPTH {
        Ok(Reader { stack, focus })
    } else {
        drop(focus);
        stop(stack, StopKind::TooDeep)
    }
}

/// Opens a node that wants an operand.
fn open(stack: Stack, frame: Frame) -> Result<Reader, Fault>
    requires { length stack ≤ 128 }
    ensures { Gives result (shallow (nat_lt (length stack + 1) 128) (Go (frame ∷ stack) Focus.Want)) }
{
    let mut stack = stack;
    if stack.len() + 1 < DEPTH {
        match stack.push(frame) {
            Ok(()) => Ok(Reader {
                stack,
                focus: Focus::Want,
            }),
            Err(Memory) => give_up(stack),
        }
    } else {
        drop(frame);
        stop(stack, StopKind::TooDeep)
    }
}

/// In a schema that is an argument.
fn continue_shape(stack: Stack, step: ShapeStep) -> Result<Reader, Fault>
    ensures { Gives result (shaped stack step) }
{
    match step {
        ShapeStep::On(state) => Ok(Reader {
            stack,
            focus: Focus::Shape(state),
        }),
        ShapeStep::Whole(schema, span) => {
            let node = Node::Schema(schema);
            Ok(Reader {
                stack,
                focus: Focus::Have(Grown::leaf(Tree { span, node })),
            })
        }
        ShapeStep::Unexpected => stop(stack, StopKind::Unexpected),
    }
}

/// Behind the angle that opens a schema.
fn start_shape(alloc: Global, stack: Stack, text: &[u8], token: Token) -> Result<Reader, Fault>
    requires { IsTokenOf text.now token }
    ensures { Gives result (shallow (nat_lt (length stack) 128) (shaped stack (shape_turn ShapeState.Start (lexeme_of text.now token)))) }
{
    if stack.len() < DEPTH {
        match read_shape(alloc, text, ShapeState::Start, token) {
            Ok(step) => continue_shape(stack, step),
            Err(Memory) => give_up(stack),
        }
    } else {
        stop(stack, StopKind::TooDeep)
    }
}

/// Before an operand, where the token is no tree of its own.
fn open_operand(alloc: Global, stack: Stack, text: &[u8], token: Token) -> Result<Reader, Fault>
    requires stack { length stack ≤ 128 }
    requires token { IsTokenOf text.now token }
    ensures { Gives result (opening 128 stack token.span (lexeme_of text.now token).what) }
{
    match token.kind {
        TokenKind::Word(Word::Not) => {
            if stack.want() <= 3 {
                open(stack, Frame::Not(token.span))
            } else {
                stop(stack, StopKind::Unexpected)
            }
        }
        TokenKind::Symbol(Symbol::Minus) => open(stack, Frame::Minus(token.span)),
        TokenKind::Symbol(Symbol::Star) => {
            if stack.want() <= 0 {
                let star = Tree {
                    span: token.span,
                    node: Node::Star,
                };
                enter(stack, Focus::Have(Grown::leaf(star)))
            } else {
                stop(stack, StopKind::Unexpected)
            }
        }
        TokenKind::Symbol(Symbol::Less) => {
            if stack.want() <= 0 {
                start_shape(alloc, stack, text, token)
            } else {
                stop(stack, StopKind::Unexpected)
            }
        }
        TokenKind::Symbol(Symbol::LeftParen) => open(stack, Frame::Group(token.span)),
        _ => stop(stack, StopKind::Unexpected),
    }
}

/// Before an operand.
fn begin(alloc: Global, stack: Stack, text: &[u8], token: Token) -> Result<Reader, Fault>
    requires stack { length stack ≤ 128 }
    requires token { IsTokenOf text.now token }
    ensures { Gives result (begin 128 stack token.span (lexeme_of text.now token).what) }
{
    match leaf_at(alloc, text, token) {
        Ok(Some(tree)) => enter(stack, Focus::Have(Grown::leaf(tree))),
        Ok(None) => open_operand(alloc, stack, text, token),
        Err(Memory) => give_up(stack),
    }
}

/// At the start of a statement.
fn start(alloc: Global, stack: Stack, text: &[u8], token: Token) -> Result<Reader, Fault>
    requires stack { length stack ≤ 128 }
    requires token { IsTokenOf text.now token }
    ensures { Gives result (start 128 stack token.span (lexeme_of text.now token).what) }
{
    match token.kind {
        TokenKind::Word(Word::Create) => Ok(Reader {
            stack,
            focus: Focus::Array(token.span),
        }),
        _ => begin(alloc, stack, text, token),
    }
}

/// Behind `create`.
fn expect_array(stack: Stack, start: Span, kind: TokenKind) -> Result<Reader, Fault>
    ensures { (bytes : List ℕ) → Gives result (array_word stack start (what_of kind bytes)) }
{
    match kind {
        TokenKind::Word(Word::Array) => Ok(Reader {
            stack,
            focus: Focus::Title(start),
        }),
        _ => stop(stack, StopKind::Unexpected),
    }
}

/// Behind `create array`.
fn title(
    alloc: Global,
    stack: Stack,
    start: Span,
    text: &[u8],
    token: Token,
) -> Result<Reader, Fault>
    requires { IsTokenOf text.now token }
    ensures { Gives result (title stack start (lexeme_of text.now token).what) }
{
    match token.kind {
        TokenKind::Name => match name_value(alloc, text, &token) {
            Ok(name) => Ok(Reader {
                stack,
                focus: Focus::NewShape(start, name, ShapeState::Start),
            }),
            Err(Memory) => give_up(stack),
        },
        _ => stop(stack, StopKind::Unexpected),
    }
}

/// In the schema of `create array`.
fn continue_new_shape(
    stack: Stack,
    start: Span,
    name: Name,
    step: ShapeStep,
) -> Result<Reader, Fault>
    ensures { Gives result (made stack start name step) }
{
    match step {
        ShapeStep::On(state) => Ok(Reader {
            stack,
            focus: Focus::NewShape(start, name, state),
        }),
        ShapeStep::Whole(schema, span) => {
            let span = across(start, span);
            let node = Node::Create(name, schema);
            Ok(Reader {
                stack,
                focus: Focus::Made(Tree { span, node }),
            })
        }
        ShapeStep::Unexpected => stop(stack, StopKind::Unexpected),
    }
}

/// Behind the bracket of a call.
fn first(
    alloc: Global,
    stack: Stack,
    name: Name,
    start: Span,
    text: &[u8],
    token: Token,
) -> Result<Reader, Fault>
    requires stack { length stack + 1 ≤ 128 }
    requires token { IsTokenOf text.now token }
    ensures { Gives result (first 128 stack name start token.span (lexeme_of text.now token).what) }
{
    let mut stack = stack;
    match token.kind {
        TokenKind::Symbol(Symbol::RightParen) => Ok(Reader {
            stack,
            focus: Focus::Have(Grown::empty_call(alloc, across(start, token.span), name)),
        }),
        _ => match stack.push(Frame::Call(name, start, Arguments::none(alloc))) {
            Ok(()) => begin(alloc, stack, text, token),
            Err(Memory) => give_up(stack),
        },
    }
}

/// Closes the open nodes that end before a node of this line.
#[tactic(auto, using(crate::proofs::Settling::settle_past, crate::proofs::Settling::settle_kept, crate::proofs::Fitting::fits_closed))]
fn settle(alloc: Global, line: u8, stack: Stack, tree: Grown) -> Result<(Stack, Grown), Memory>
    requires { FitsBelow 128 (stack, tree) }
    ensures settled { IfOk result (λ r. settle line stack tree ≡ (r.0, r.1)) }
    ensures fits { IfOk result (λ r. FitsBelow 128 (r.0, r.1)) }
{
    let mut stack = stack;
    let mut tree = tree;
    while let Some(frame) = stack.pop() {
        if !frame.ends(line) {
            match stack.push(frame) {
                Ok(()) => return Ok((stack, tree)),
                Err(Memory) => {
                    drop(stack);
                    drop(tree);
                    return Err(Memory);
                }
            }
        }
        match frame.close(alloc, tree) {
            Ok(closed) => tree = closed,
            Err(Memory) => {
                drop(stack);
                return Err(Memory);
            }
        }
    }
    Ok((stack, tree))
}

/// A binary operator behind its left operand.
fn operate(op: BinaryOp, stack: Stack, tree: Grown) -> Result<Reader, Fault>
    requires { FitsBelow 128 (stack, tree) }
    ensures { Gives result (operated 128 op (stack, tree)) }
{
    let mut stack = stack;
    if stack.want() <= operator_line(op) && left_line(op) <= top_line(tree.tree()) {
        if stack.len() + 1 + tree.height() <= DEPTH {
            match stack.push(Frame::Left(op, tree)) {
                Ok(()) => Ok(Reader {
                    stack,
                    focus: Focus::Want,
                }),
                Err(Memory) => give_up(stack),
            }
        } else {
            stop_behind(stack, tree, StopKind::TooDeep)
        }
    } else {
        stop_behind(stack, tree, StopKind::Unexpected)
    }
}

/// `as` behind an argument.
fn start_name(stack: Stack, tree: Grown) -> Result<Reader, Fault>
    requires { FitsBelow 128 (stack, tree) }
    ensures { Gives result (named 128 (stack, tree)) }
{
    if stack.want() <= 0 && 1 <= top_line(tree.tree()) {
        if stack.len() + 1 + tree.height() <= DEPTH {
            Ok(Reader {
                stack,
                focus: Focus::Naming(tree),
            })
        } else {
            stop_behind(stack, tree, StopKind::TooDeep)
        }
    } else {
        stop_behind(stack, tree, StopKind::Unexpected)
    }
}

/// A left bracket behind a tree.
fn open_call(stack: Stack, tree: Grown) -> Result<Reader, Fault>
    ensures { Gives result (opened stack tree) }
{
    let span = span_of(tree.tree());
    match reference_of(tree.into_tree()) {
        Some(name) => Ok(Reader {
            stack,
            focus: Focus::First(name, span),
        }),
        None => stop(stack, StopKind::Unexpected),
    }
}

/// `@` behind a tree.
fn start_version(stack: Stack, tree: Grown) -> Result<Reader, Fault>
    ensures { Gives result (dated stack tree) }
{
    let span = span_of(tree.tree());
    match reference_of(tree.into_tree()) {
        Some(name) => Ok(Reader {
            stack,
            focus: Focus::At(name, span),
        }),
        None => stop(stack, StopKind::Unexpected),
    }
}

/// Behind a name and `@`.
fn end_version(stack: Stack, name: Name, start: Span, token: Token) -> Result<Reader, Fault>
    ensures { (bytes : List ℕ) → Gives result (date stack name start token.span (what_of token.kind bytes)) }
{
    match token.kind {
        TokenKind::Int(number) => {
            let version = Tree {
                span: across(start, token.span),
                node: Node::Version(name, number),
            };
            Ok(Reader {
                stack,
                focus: Focus::Have(Grown::leaf(version)),
            })
        }
        _ => stop(stack, StopKind::Unexpected),
    }
}

/// A tree in brackets.
fn end_group(alloc: Global, stack: Stack, span: Span, tree: Grown) -> Result<Reader, Fault>
    requires { height tree + 1 < 2 ^ 64 }
    ensures { Gives result (Go stack (Focus.Have (group span tree))) }
{
    match Grown::group(alloc, span, tree) {
        Ok(group) => Ok(Reader {
            stack,
            focus: Focus::Have(group),
        }),
        Err(Memory) => give_up(stack),
    }
}

/// A call with its arguments.
fn end_call(stack: Stack, span: Span, name: Name, arguments: Arguments) -> Reader
    requires { heights (to_terms arguments) + 1 < 2 ^ 64 }
    ensures { (result.stack ≡ stack) × (result.focus ≡ Focus.Have (call span name (to_terms arguments))) }
{
    Reader {
        stack,
        focus: Focus::Have(Grown::call(span, name, arguments)),
    }
}

/// A call with its last argument.
#[tactic(auto, using(crate::proofs::Heights::heights_of_more))]
fn end_arguments(
    stack: Stack,
    span: Span,
    name: Name,
    arguments: Arguments,
    tree: Grown,
) -> Result<Reader, Fault>
    requires arguments { heights (to_terms arguments) + 1 < 2 ^ 64 }
    requires tree { height tree + 1 < 2 ^ 64 }
    ensures { Gives result (Go stack (Focus.Have (call span name (to_terms (arguments ++ tree ∷ []))))) }
{
    match arguments.with(tree) {
        Ok(arguments) => Ok(end_call(stack, span, name, arguments)),
        Err(Memory) => {
            drop(name);
            give_up(stack)
        }
    }
}

/// A right bracket behind the last child of an open node.
fn end_node(
    alloc: Global,
    stack: Stack,
    frame: Frame,
    tree: Grown,
    end: Span,
) -> Result<Reader, Fault>
    requires { FitsBelow 128 (frame ∷ stack, tree) }
    ensures { Gives result (closed (frame ∷ stack) tree end) }
{
    match frame {
        Frame::Group(start) => end_group(alloc, stack, across(start, end), tree),
        Frame::Call(name, start, arguments) => {
            end_arguments(stack, across(start, end), name, arguments, tree)
        }
        Frame::Not(_) | Frame::Minus(_) => stop_behind(stack, tree, StopKind::Unexpected),
        Frame::Left(_, left) => {
            drop(left);
            stop_behind(stack, tree, StopKind::Unexpected)
        }
    }
}

/// A right bracket, where the operators before it have ended.
fn close_bracket(alloc: Global, stack: Stack, tree: Grown, end: Span) -> Result<Reader, Fault>
    requires { FitsBelow 128 (stack, tree) }
    ensures { Gives result (closed stack tree end) }
{
    let mut stack = stack;
    match stack.pop() {
        Some(frame) => end_node(alloc, stack, frame, tree, end),
        None => stop_behind(stack, tree, StopKind::Unexpected),
    }
}

/// Opens a node again for its next child.
fn open_next(stack: Stack, frame: Frame) -> Result<Reader, Fault>
    ensures { Gives result (Go (frame ∷ stack) Focus.Want) }
{
    let mut stack = stack;
    match stack.push(frame) {
        Ok(()) => Ok(Reader {
            stack,
            focus: Focus::Want,
        }),
        Err(Memory) => give_up(stack),
    }
}

/// A call with one more argument, which wants its next.
fn go_on_call(
    stack: Stack,
    name: Name,
    start: Span,
    arguments: Arguments,
    tree: Grown,
) -> Result<Reader, Fault>
    ensures { Gives result (Go (Frame.Call name start (arguments ++ tree ∷ []) ∷ stack) Focus.Want) }
{
    match arguments.with(tree) {
        Ok(arguments) => open_next(stack, Frame::Call(name, start, arguments)),
        Err(Memory) => {
            drop(name);
            give_up(stack)
        }
    }
}

/// A comma, where the operators before it have ended.
fn next_argument(stack: Stack, tree: Grown) -> Result<Reader, Fault>
    ensures { Gives result (separated stack tree) }
{
    let mut stack = stack;
    match stack.pop() {
        Some(Frame::Call(name, start, arguments)) => {
            go_on_call(stack, name, start, arguments, tree)
        }
        Some(other) => {
            drop(other);
            stop_behind(stack, tree, StopKind::Unexpected)
        }
        None => stop_behind(stack, tree, StopKind::Unexpected),
    }
}

/// Behind a tree, where the token is no operator.
fn join(alloc: Global, stack: Stack, tree: Grown, token: Token) -> Result<Reader, Fault>
    requires { FitsBelow 128 (stack, tree) }
    ensures { (bytes : List ℕ) → Gives result (joined 128 stack tree token.span (what_of token.kind bytes)) }
{
    match token.kind {
        TokenKind::Word(Word::As) => {
            let (stack, tree) = settle(alloc, 0, stack, tree)?;
            start_name(stack, tree)
        }
        TokenKind::Symbol(Symbol::LeftParen) => open_call(stack, tree),
        TokenKind::Symbol(Symbol::At) => start_version(stack, tree),
        TokenKind::Symbol(Symbol::RightParen) => {
            let (stack, tree) = settle(alloc, 0, stack, tree)?;
            close_bracket(alloc, stack, tree, token.span)
        }
        TokenKind::Symbol(Symbol::Comma) => {
            let (stack, tree) = settle(alloc, 0, stack, tree)?;
            next_argument(stack, tree)
        }
        _ => stop_behind(stack, tree, StopKind::Unexpected),
    }
}

/// The operator that a token spells.
fn operator_of(kind: TokenKind) -> Option<BinaryOp>
    ensures { (bytes : List ℕ) → result ≡ op_of (what_of kind bytes) }
{
    match kind {
        TokenKind::Word(Word::Or) => Some(BinaryOp::Or),
        TokenKind::Word(Word::And) => Some(BinaryOp::And),
        TokenKind::Symbol(Symbol::Equal) => Some(BinaryOp::Equal),
        TokenKind::Symbol(Symbol::Differs | Symbol::NotEqual) => Some(BinaryOp::Differs),
        TokenKind::Symbol(Symbol::Less) => Some(BinaryOp::Less),
        TokenKind::Symbol(Symbol::AtMost) => Some(BinaryOp::AtMost),
        TokenKind::Symbol(Symbol::More) => Some(BinaryOp::More),
        TokenKind::Symbol(Symbol::AtLeast) => Some(BinaryOp::AtLeast),
        TokenKind::Symbol(Symbol::Plus) => Some(BinaryOp::Add),
        TokenKind::Symbol(Symbol::Minus) => Some(BinaryOp::Sub),
        TokenKind::Symbol(Symbol::Star) => Some(BinaryOp::Mul),
        TokenKind::Symbol(Symbol::Slash) => Some(BinaryOp::Div),
        TokenKind::Symbol(Symbol::Percent) => Some(BinaryOp::Rem),
        _ => None,
    }
}

/// Behind a tree.
fn extend(alloc: Global, stack: Stack, tree: Grown, token: Token) -> Result<Reader, Fault>
    requires { FitsBelow 128 (stack, tree) }
    ensures { (bytes : List ℕ) → Gives result (extend 128 stack tree token.span (what_of token.kind bytes)) }
{
    match operator_of(token.kind) {
        Some(op) => {
            let (stack, tree) = settle(alloc, operator_line(op), stack, tree)?;
            operate(op, stack, tree)
        }
        None => join(alloc, stack, tree, token),
    }
}

/// A tree under a name.
fn rename(alloc: Global, stack: Stack, span: Span, tree: Grown, name: Name) -> Result<Reader, Fault>
    requires { height tree + 1 < 2 ^ 64 }
    ensures { Gives result (Go stack (Focus.Have (renamed span tree name))) }
{
    match Grown::renamed(alloc, span, tree, name) {
        Ok(renamed) => Ok(Reader {
            stack,
            focus: Focus::Have(renamed),
        }),
        Err(Memory) => give_up(stack),
    }
}

/// Behind `as`.
fn name_it(
    alloc: Global,
    stack: Stack,
    tree: Grown,
    text: &[u8],
    token: Token,
) -> Result<Reader, Fault>
    requires fits { Fits 128 stack (Focus.Naming tree) }
    requires token { IsTokenOf text.now token }
    ensures { Gives result (name_it stack tree token.span (lexeme_of text.now token).what) }
{
    match token.kind {
        TokenKind::Name => {
            let whole = across(span_of(tree.tree()), token.span);
            match name_value(alloc, text, &token) {
                Ok(name) => rename(alloc, stack, whole, tree, name),
                Err(Memory) => {
                    drop(tree);
                    give_up(stack)
                }
            }
        }
        _ => stop_behind(stack, tree, StopKind::Unexpected),
    }
}

/// The tree, where no more is open.
fn end_whole(stack: Stack, tree: Grown) -> Result<Tree, Fault>
    ensures { GivesWhole result (Some tree) }
{
    drop(stack);
    Ok(tree.into_tree())
}

/// No tree, where more is open.
fn end_open(stack: Stack, frame: Frame, tree: Grown) -> Result<Tree, Fault>
    ensures { GivesWhole result None }
{
    drop(stack);
    drop(frame);
    drop(tree);
    Err(Fault::Stop(StopKind::Unexpected))
}

/// The whole tree of what has settled.
fn whole_of(stack: Stack, tree: Grown) -> Result<Tree, Fault>
    ensures { GivesWhole result (whole (stack, tree)) }
{
    let mut stack = stack;
    match stack.pop() {
        None => end_whole(stack, tree),
        Some(frame) => end_open(stack, frame, tree),
    }
}

/// The whole tree, where nothing is open.
fn whole(alloc: Global, stack: Stack, tree: Grown) -> Result<Tree, Fault>
    requires { FitsBelow 128 (stack, tree) }
    ensures { GivesWhole result (whole (settle 0 stack tree)) }
{
    match settle(alloc, 0, stack, tree) {
        Ok((stack, tree)) => whole_of(stack, tree),
        Err(Memory) => Err(Fault::Memory),
    }
}

impl Reader {
    /// Reads one token.
    pub(crate) fn read(self, alloc: Global, text: &[u8], token: Token) -> Result<Reader, Fault>
        requires fits { Fits 128 self.stack self.focus }
        requires token { IsTokenOf text.now token }
        ensures { Gives result (turn 128 self.stack self.focus (lexeme_of text.now token)) }
    {
        let Reader { stack, focus } = self;
        match focus {
            Focus::Start => start(alloc, stack, text, token),
            Focus::Array(start) => expect_array(stack, start, token.kind),
            Focus::Title(start) => title(alloc, stack, start, text, token),
            Focus::NewShape(start, name, state) => match read_shape(alloc, text, state, token) {
                Ok(step) => continue_new_shape(stack, start, name, step),
                Err(Memory) => give_up(stack),
            },
            Focus::Made(made) => {
                drop(made);
                stop(stack, StopKind::Unexpected)
            }
            Focus::Want => begin(alloc, stack, text, token),
            Focus::First(name, start) => first(alloc, stack, name, start, text, token),
            Focus::Have(tree) => extend(alloc, stack, tree, token),
            Focus::At(name, start) => end_version(stack, name, start, token),
            Focus::Naming(tree) => name_it(alloc, stack, tree, text, token),
            Focus::Shape(state) => match read_shape(alloc, text, state, token) {
                Ok(step) => continue_shape(stack, step),
                Err(Memory) => give_up(stack),
            },
        }
    }

    /// The whole tree, where nothing is open.
    pub(crate) fn finish(self, alloc: Global) -> Result<Tree, Fault>
        requires { Fits 128 self.stack self.focus }
        ensures { GivesWhole result (finished self.stack self.focus) }
    {
        let Reader { stack, focus } = self;
        match focus {
            Focus::Have(tree) => whole(alloc, stack, tree),
            Focus::Made(tree) => {
                drop(stack);
                Ok(tree)
            }
            other => {
                drop(stack);
                drop(other);
                Err(Fault::Stop(StopKind::Unexpected))
            }
        }
    }
}
