//! The printed form of a tree.
ghost use Rattle.std.specs.Prelude.{◌≡◌, ◌++◌, codes, IfOk, OnOk};
ghost use Rattle.std.specs.Fmt.{decimal, signed_decimal};
ghost use Rattle.std.specs.List.{join_with_byte};
ghost use Rattle.afl_lexer.specs.Spelling.{escaped, quoted_text};
ghost use Rattle.schema_grammar.specs.SchemaBytes.{shape_bytes};
ghost use Rattle.afl_trees.specs.Print.{op_bytes, truth_bytes, printed, all_printed, AreReadAgain};
ghost use Rattle.afl_trees.specs.Term.{to_terms};

use crate::{BinaryOp, Node, Tree};
use cell_values::{Bytes, List, Memory, Name};
use schema_grammar::{SchemaText, print_shape};
use std::alloc::Global;

fn op_text(op: BinaryOp) -> &'static [u8]
    ensures { result.now ≡ op_bytes op }
{
    match op {
        BinaryOp::Or => b"or",
        BinaryOp::And => b"and",
        BinaryOp::Equal => b"=",
        BinaryOp::Differs => b"<>",
        BinaryOp::Less => b"<",
        BinaryOp::AtMost => b"<=",
        BinaryOp::More => b">",
        BinaryOp::AtLeast => b">=",
        BinaryOp::Add => b"+",
        BinaryOp::Sub => b"-",
        BinaryOp::Mul => b"*",
        BinaryOp::Div => b"/",
        BinaryOp::Rem => b"%",
    }
}

fn truth_text(truth: bool) -> &'static [u8]
    ensures { result.now ≡ truth_bytes truth }
{
    if truth { b"true" } else { b"false" }
}

/// Adds a binary operator with its spaces.
fn write_op(out: &mut Bytes, op: BinaryOp) -> Result<(), Memory>
    ensures { OnOk result (out.new ≡ out.old ++ (codes " " ++ op_bytes op ++ codes " ")) }
{
    out.push(b' ')?;
    out.extend(op_text(op))?;
    out.push(b' ')
}

fn write_number(out: &mut Bytes, number: i64) -> Result<(), Memory>
    ensures { OnOk result (out.new ≡ out.old ++ signed_decimal number) }
{
    out.extend(number.to_string(out.allocator())?.as_bytes())
}

fn write_code(out: &mut Bytes, code: u8) -> Result<(), Memory>
    ensures { OnOk result (out.new ≡ out.old ++ (codes "?" ++ decimal code)) }
{
    out.push(b'?')?;
    out.extend(code.to_string(out.allocator())?.as_bytes())
}

fn write_escaped(out: &mut Bytes, byte: u8) -> Result<(), Memory>
    ensures { OnOk result (out.new ≡ out.old ++ escaped byte) }
{
    if byte == b'\'' || byte == b'\\' {
        out.push(b'\\')?;
    }
    out.push(byte)
}

/// Adds a text in quotes.
fn write_text(out: &mut Bytes, content: &[u8]) -> Result<(), Memory>
    ensures { OnOk result (out.new ≡ out.old ++ quoted_text content.now) }
{
    out.push(b'\'')?;
    for byte in content {
        write_escaped(out, *byte)?;
    }
    out.push(b'\'')
}

fn write_schema(out: &mut Bytes, schema: &SchemaText) -> Result<(), Memory>
    ensures { OnOk result (out.new ≡ out.old ++ shape_bytes schema.now) }
{
    out.append(print_shape(out.allocator(), schema)?)
}

/// Adds these words, a name and a space.
fn write_title(out: &mut Bytes, words: &[u8], name: &Name) -> Result<(), Memory>
    ensures { OnOk result (out.new ≡ out.old ++ (words.now ++ name.now ++ codes " ")) }
{
    out.extend(words)?;
    out.extend(name.as_slice())?;
    out.push(b' ')
}

/// Adds `create array` with a name and a schema.
fn write_create(out: &mut Bytes, name: &Name, schema: &SchemaText) -> Result<(), Memory>
    ensures { OnOk result (out.new ≡ out.old ++ (codes "create array " ++ name.now ++ codes " " ++ shape_bytes schema.now)) }
{
    write_title(out, b"create array ", name)?;
    write_schema(out, schema)
}

/// Adds a name with its version.
fn write_version(out: &mut Bytes, name: &Name, number: i64) -> Result<(), Memory>
    ensures { OnOk result (out.new ≡ out.old ++ (name.now ++ codes "@" ++ signed_decimal number)) }
{
    out.extend(name.as_slice())?;
    out.push(b'@')?;
    write_number(out, number)
}

/// Adds the printed forms of arguments, with commas between.
#[cycle(print)]
fn write_trees(out: &mut Bytes, trees: &[Tree]) -> Result<(), Memory>
    ensures { OnOk result (out.new ≡ out.old ++ join_with_byte 44 (all_printed (to_terms trees.now))) }
{
    let [first, rest @ ..] = trees else {
        return Ok(());
    };
    write_tree(out, first)?;
    for tree in rest {
        out.push(b',')?;
        write_tree(out, tree)?;
    }
    Ok(())
}

/// Adds a name with arguments in brackets.
#[cycle(print)]
fn write_call(out: &mut Bytes, name: &Name, arguments: &[Tree]) -> Result<(), Memory>
    ensures { OnOk result
        (out.new ≡ out.old ++ (name.now ++ codes "(" ++ join_with_byte 44 (all_printed (to_terms arguments.now)) ++ codes ")")) }
{
    out.extend(name.as_slice())?;
    out.push(b'(')?;
    write_trees(out, arguments)?;
    out.push(b')')
}

/// Adds a tree with the name that it is given.
#[cycle(print)]
fn write_renamed(out: &mut Bytes, inner: &Tree, name: &Name) -> Result<(), Memory>
    ensures { OnOk result (out.new ≡ out.old ++ (printed inner.now ++ codes " as " ++ name.now)) }
{
    write_tree(out, inner)?;
    out.extend(b" as ")?;
    out.extend(name.as_slice())
}

/// Adds these words and a tree.
#[cycle(print)]
fn write_prefixed(out: &mut Bytes, words: &[u8], inner: &Tree) -> Result<(), Memory>
    ensures { OnOk result (out.new ≡ out.old ++ (words.now ++ printed inner.now)) }
{
    out.extend(words)?;
    write_tree(out, inner)
}

/// Adds two trees with an operator between.
#[cycle(print)]
fn write_binary(out: &mut Bytes, op: BinaryOp, left: &Tree, right: &Tree) -> Result<(), Memory>
    ensures { OnOk result
        (out.new ≡ out.old ++ (printed left.now ++ codes " " ++ op_bytes op ++ codes " " ++ printed right.now)) }
{
    write_tree(out, left)?;
    write_op(out, op)?;
    write_tree(out, right)
}

/// Adds a tree in brackets.
#[cycle(print)]
fn write_grouped(out: &mut Bytes, inner: &Tree) -> Result<(), Memory>
    ensures { OnOk result (out.new ≡ out.old ++ (codes "(" ++ printed inner.now ++ codes ")")) }
{
    out.push(b'(')?;
    write_tree(out, inner)?;
    out.push(b')')
}

/// Adds the printed form of a tree.
#[cycle(print)]
fn write_tree(out: &mut Bytes, tree: &Tree) -> Result<(), Memory>
    ensures { OnOk result (out.new ≡ out.old ++ printed tree.now) }
{
    match &tree.node {
        Node::Create(name, schema) => write_create(out, name, schema),
        Node::Number(number) => write_number(out, *number),
        Node::Text(text) => write_text(out, text.as_slice()),
        Node::Truth(truth) => out.extend(truth_text(*truth)),
        Node::Null => out.extend(b"null"),
        Node::Missing(code) => write_code(out, code.number()),
        Node::Ref(name) => out.extend(name.as_slice()),
        Node::Version(name, number) => write_version(out, name, *number),
        Node::Call(name, arguments) => write_call(out, name, arguments),
        Node::Schema(schema) => write_schema(out, schema),
        Node::Star => out.push(b'*'),
        Node::As(inner, name) => write_renamed(out, inner, name),
        Node::Not(inner) => write_prefixed(out, b"not ", inner),
        Node::Minus(inner) => write_prefixed(out, b"- ", inner),
        Node::Binary(op, left, right) => write_binary(out, *op, left, right),
        Node::Group(inner) => write_grouped(out, inner),
    }
}

/// The printed form of a tree, as `build(<v:int64>[i=0:3,2,0],i * i)`.
pub fn print(alloc: Global, tree: &Tree) -> Result<Bytes, Memory>
    ensures { IfOk result (λ text. text ≡ printed tree.now) }
{
    let mut text = List::new(alloc);
    write_tree(&mut text, tree)?;
    Ok(text)
}

/// The printed form of a text's tree is a text whose tree is the same but for places.
pub fn printed_trees_are_read_again()
    ensures { AreReadAgain }
{}
