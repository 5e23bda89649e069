//! Copies of expressions.
ghost use Rattle.std.specs.Prelude.{◌≡◌, IfOk};
ghost use Rattle.expr_nulls.specs.Expr.{conditional};
ghost use Rattle.expr_nulls.specs.Inner.ExprView.{expr_of};

use crate::{ExprNode, TypedExpr};
use cell_values::{Copies, Memory};

#[cycle(copy_expr)]
fn copy_operand(operand: &Box<TypedExpr>) -> Result<Box<TypedExpr>, Memory>
    ensures { IfOk result (λ copy. copy.value ≡ operand.now.value) }
{
    Ok(Box::new(*Box::allocator(operand), copy_expr(operand)?)?)
}

#[cycle(copy_expr)]
fn copy_two(
    a: &Box<TypedExpr>,
    b: &Box<TypedExpr>,
) -> Result<(Box<TypedExpr>, Box<TypedExpr>), Memory>
    ensures { IfOk result (λ copies. (copies.0.value ≡ a.now.value) × (copies.1.value ≡ b.now.value)) }
{
    let one = copy_operand(a)?;
    match copy_operand(b) {
        Ok(two) => Ok((one, two)),
        Err(Memory) => {
            drop(one);
            Err(Memory)
        }
    }
}

#[cycle(copy_expr)]
fn copy_iif(
    test: &Box<TypedExpr>,
    a: &Box<TypedExpr>,
    b: &Box<TypedExpr>,
) -> Result<ExprNode, Memory>
    ensures { IfOk result (λ copy. expr_of copy ≡ conditional test.now.value a.now.value b.now.value) }
{
    let test = copy_operand(test)?;
    match copy_two(a, b) {
        Ok((a, b)) => Ok(ExprNode::Iif(test, a, b)),
        Err(Memory) => {
            drop(test);
            Err(Memory)
        }
    }
}

#[cycle(copy_expr)]
fn copy_node(node: &ExprNode) -> Result<ExprNode, Memory>
    ensures { IfOk result (λ copy. expr_of copy ≡ expr_of node.now) }
{
    match node {
        ExprNode::Lit(value) => Ok(ExprNode::Lit(value.copy()?)),
        ExprNode::Attr(place) => Ok(ExprNode::Attr(*place)),
        ExprNode::Dim(place) => Ok(ExprNode::Dim(*place)),
        ExprNode::Neg(a) => Ok(ExprNode::Neg(copy_operand(a)?)),
        ExprNode::Not(a) => Ok(ExprNode::Not(copy_operand(a)?)),
        ExprNode::Arith(op, a, b) => {
            let (a, b) = copy_two(a, b)?;
            Ok(ExprNode::Arith(*op, a, b))
        }
        ExprNode::Compare(op, a, b) => {
            let (a, b) = copy_two(a, b)?;
            Ok(ExprNode::Compare(*op, a, b))
        }
        ExprNode::And(a, b) => {
            let (a, b) = copy_two(a, b)?;
            Ok(ExprNode::And(a, b))
        }
        ExprNode::Or(a, b) => {
            let (a, b) = copy_two(a, b)?;
            Ok(ExprNode::Or(a, b))
        }
        ExprNode::Iif(test, a, b) => copy_iif(test, a, b),
        ExprNode::IsNull(a) => Ok(ExprNode::IsNull(copy_operand(a)?)),
        ExprNode::StrLen(a) => Ok(ExprNode::StrLen(copy_operand(a)?)),
        ExprNode::ToText(a) => Ok(ExprNode::ToText(copy_operand(a)?)),
        ExprNode::Missing(a) => Ok(ExprNode::Missing(copy_operand(a)?)),
        ExprNode::Reason(a) => Ok(ExprNode::Reason(copy_operand(a)?)),
    }
}

#[cycle(copy_expr)]
fn copy_expr(expr: &TypedExpr) -> Result<TypedExpr, Memory>
    ensures { IfOk result (λ copy. copy ≡ expr.now) }
{
    let node = copy_node(&expr.node)?;
    Ok(TypedExpr { node })
}

impl TypedExpr {
    /// An equal expression, with the same allocator.
    pub fn copy(&self) -> Result<TypedExpr, Memory>
        ensures { IfOk result (λ copy. copy ≡ self.now) }
    {
        copy_expr(self)
    }
}

impl Copies for TypedExpr {
    fn copy(&self) -> Result<TypedExpr, Memory> {
        self.copy()
    }
}
