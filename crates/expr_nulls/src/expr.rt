//! Expressions whose names are resolved.
ghost use Rattle.std.specs.Prelude.{◌≡◌, IfOk};
ghost use Rattle.expr_nulls.specs.Expr.{literal, attribute_value, dimension_value, minus, denial, calculation, relation, conjunction};
ghost use Rattle.expr_nulls.specs.Expr.{disjunction, conditional, null_test, byte_length, decimal_text, coded_null, null_code};

use cell_values::{CompareOp, Datum, Memory};
use std::alloc::Global;
use std::marker::Model;

/// An operator on two numbers; `Add` also joins two texts.
#[derive(Clone, Copy)]
pub enum ArithOp {
    Add,
    Sub,
    Mul,
    Div,
    Rem,
}

/// An expression over the values and the coordinate of a cell. Contracts see it as an `Expr`, without its boxes.
#[cycle(expr)]
pub struct TypedExpr {
    pub node: ExprNode,
}

impl Drop for TypedExpr {
    fn drop(self) {
        let TypedExpr { node: _ } = self;
    }
}

#[cycle(expr)]
#[derive(Drop)]
pub enum ExprNode {
    Lit(Datum),
    /// The value of an attribute, by its place from 0.
    Attr(u32),
    /// The number of a dimension, by its place from 0.
    Dim(u32),
    /// Prefix `-`.
    Neg(Box<TypedExpr>),
    Not(Box<TypedExpr>),
    Arith(ArithOp, Box<TypedExpr>, Box<TypedExpr>),
    Compare(CompareOp, Box<TypedExpr>, Box<TypedExpr>),
    And(Box<TypedExpr>, Box<TypedExpr>),
    Or(Box<TypedExpr>, Box<TypedExpr>),
    /// The second operand where the first is true, else the third.
    Iif(Box<TypedExpr>, Box<TypedExpr>, Box<TypedExpr>),
    IsNull(Box<TypedExpr>),
    /// The number of bytes of a text.
    StrLen(Box<TypedExpr>),
    /// The decimal text of a number.
    ToText(Box<TypedExpr>),
    /// The null whose code is a number.
    Missing(Box<TypedExpr>),
    /// The code of a null, -1 where the value is not null.
    Reason(Box<TypedExpr>),
}

impl Model for TypedExpr {
    ghost use Rattle.expr_nulls.specs.Expr.{Expr, expr_size};
    ghost use Rattle.expr_nulls.specs.Lemmas.ExprCode.{expr_code};

    ghost Value = { Expr };

    ghost coded = { expr_code };

    ghost use Rattle.expr_nulls.specs.Inner.ExprView.{expr_of};

    ghost view = { λ e. expr_of e.node };

    ghost size = { expr_size };

    ghost use Rattle.expr_nulls.specs.Lemmas.ExprFalls.{depth_le-size};

    ghost size_decreases = { λ e h. depth_le-size e.node };
}

/// Lets an expression go. That its boxes can be let go is proved here once, and not again in each crate that calls this.
pub fn let_go_expr(expr: TypedExpr) {
    drop(expr)
}

/// Two expressions in boxes.
fn boxed_both(
    alloc: Global,
    a: TypedExpr,
    b: TypedExpr,
) -> Result<(Box<TypedExpr>, Box<TypedExpr>), Memory>
    ensures { IfOk result (λ both. (both.0.value ≡ a) × (both.1.value ≡ b)) }
{
    match Box::new(alloc, a) {
        Ok(a) => boxed_beside(alloc, a, b),
        Err(_) => {
            drop(b);
            Err(Memory)
        }
    }
}

/// A box, and a second expression in a box.
fn boxed_beside(
    alloc: Global,
    a: Box<TypedExpr>,
    b: TypedExpr,
) -> Result<(Box<TypedExpr>, Box<TypedExpr>), Memory>
    ensures { IfOk result (λ both. (both.0.value ≡ a.value) × (both.1.value ≡ b)) }
{
    match Box::new(alloc, b) {
        Ok(b) => Ok((a, b)),
        Err(_) => {
            drop(a);
            Err(Memory)
        }
    }
}

/// `a` where `test` is true, else `b`.
fn choice(
    alloc: Global,
    test: TypedExpr,
    a: Box<TypedExpr>,
    b: Box<TypedExpr>,
) -> Result<TypedExpr, Memory>
    ensures { IfOk result (λ e. e ≡ conditional test a.value b.value) }
{
    match Box::new(alloc, test) {
        Ok(test) => Ok(TypedExpr {
            node: ExprNode::Iif(test, a, b),
        }),
        Err(_) => {
            drop(a);
            drop(b);
            Err(Memory)
        }
    }
}

impl TypedExpr {
    pub fn lit(value: Datum) -> TypedExpr
        ensures { result ≡ literal value }
    {
        TypedExpr {
            node: ExprNode::Lit(value),
        }
    }

    pub fn attr(place: u32) -> TypedExpr
        ensures { result ≡ attribute_value place }
    {
        TypedExpr {
            node: ExprNode::Attr(place),
        }
    }

    pub fn dim(place: u32) -> TypedExpr
        ensures { result ≡ dimension_value place }
    {
        TypedExpr {
            node: ExprNode::Dim(place),
        }
    }

    pub fn neg(alloc: Global, a: TypedExpr) -> Result<TypedExpr, Memory>
        ensures { IfOk result (λ e. e ≡ minus a) }
    {
        let node = ExprNode::Neg(Box::new(alloc, a)?);
        Ok(TypedExpr { node })
    }

    pub fn not(alloc: Global, a: TypedExpr) -> Result<TypedExpr, Memory>
        ensures { IfOk result (λ e. e ≡ denial a) }
    {
        let node = ExprNode::Not(Box::new(alloc, a)?);
        Ok(TypedExpr { node })
    }

    pub fn arith(
        alloc: Global,
        op: ArithOp,
        a: TypedExpr,
        b: TypedExpr,
    ) -> Result<TypedExpr, Memory>
        ensures { IfOk result (λ e. e ≡ calculation op a b) }
    {
        let (a, b) = boxed_both(alloc, a, b)?;
        Ok(TypedExpr {
            node: ExprNode::Arith(op, a, b),
        })
    }

    pub fn compare(
        alloc: Global,
        op: CompareOp,
        a: TypedExpr,
        b: TypedExpr,
    ) -> Result<TypedExpr, Memory>
        ensures { IfOk result (λ e. e ≡ relation op a b) }
    {
        let (a, b) = boxed_both(alloc, a, b)?;
        Ok(TypedExpr {
            node: ExprNode::Compare(op, a, b),
        })
    }

    pub fn and(alloc: Global, a: TypedExpr, b: TypedExpr) -> Result<TypedExpr, Memory>
        ensures { IfOk result (λ e. e ≡ conjunction a b) }
    {
        let (a, b) = boxed_both(alloc, a, b)?;
        Ok(TypedExpr {
            node: ExprNode::And(a, b),
        })
    }

    pub fn or(alloc: Global, a: TypedExpr, b: TypedExpr) -> Result<TypedExpr, Memory>
        ensures { IfOk result (λ e. e ≡ disjunction a b) }
    {
        let (a, b) = boxed_both(alloc, a, b)?;
        Ok(TypedExpr {
            node: ExprNode::Or(a, b),
        })
    }

    /// `a` where `test` is true, else `b`.
    pub fn iif(
        alloc: Global,
        test: TypedExpr,
        a: TypedExpr,
        b: TypedExpr,
    ) -> Result<TypedExpr, Memory>
        ensures { IfOk result (λ e. e ≡ conditional test a b) }
    {
        match boxed_both(alloc, a, b) {
            Ok((a, b)) => choice(alloc, test, a, b),
            Err(Memory) => {
                drop(test);
                Err(Memory)
            }
        }
    }

    pub fn is_null(alloc: Global, a: TypedExpr) -> Result<TypedExpr, Memory>
        ensures { IfOk result (λ e. e ≡ null_test a) }
    {
        let node = ExprNode::IsNull(Box::new(alloc, a)?);
        Ok(TypedExpr { node })
    }

    pub fn str_len(alloc: Global, a: TypedExpr) -> Result<TypedExpr, Memory>
        ensures { IfOk result (λ e. e ≡ byte_length a) }
    {
        let node = ExprNode::StrLen(Box::new(alloc, a)?);
        Ok(TypedExpr { node })
    }

    pub fn to_text(alloc: Global, a: TypedExpr) -> Result<TypedExpr, Memory>
        ensures { IfOk result (λ e. e ≡ decimal_text a) }
    {
        let node = ExprNode::ToText(Box::new(alloc, a)?);
        Ok(TypedExpr { node })
    }

    pub fn missing(alloc: Global, a: TypedExpr) -> Result<TypedExpr, Memory>
        ensures { IfOk result (λ e. e ≡ coded_null a) }
    {
        let node = ExprNode::Missing(Box::new(alloc, a)?);
        Ok(TypedExpr { node })
    }

    pub fn reason(alloc: Global, a: TypedExpr) -> Result<TypedExpr, Memory>
        ensures { IfOk result (λ e. e ≡ null_code a) }
    {
        let node = ExprNode::Reason(Box::new(alloc, a)?);
        Ok(TypedExpr { node })
    }
}
