//! Laws of expressions.
ghost use Rattle.check_exprs.specs.Laws.{InnerFaultsFirst, TypedHaveKinds};

/// What checking answers for an expression is typed over the attributes and dimensions of its source.
pub fn typed_expressions_have_kinds()
    ensures { TypedHaveKinds }
{}

/// A fault within an operand comes before one of its operator, and one within the left operand first.
pub fn inner_faults_come_first()
    ensures { InnerFaultsFirst }
{}
