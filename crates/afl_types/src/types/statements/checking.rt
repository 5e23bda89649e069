//! Checking of statements.
ghost use Rattle.std.specs.Prelude.{◌≡◌, IfOk};
ghost use Rattle.check_rules.specs.Checked.{Answers};
ghost use Rattle.afl_types.specs.Arrays.{AreValid};
ghost use Rattle.afl_types.specs.Checking.{check_of};

use crate::queries::query_plan;
use crate::types::changes::create_array;
use crate::types::statements::statement::{of_change, of_query, said};
use afl_trees::{Node, Tree};
use cell_values::{Copies, Memory, Name};
use check_rules::TypeFault;
use logical_plan::{Names, Plan};
use plan_changes::Change;
use std::alloc::Global;

/// A typed statement.
#[derive(Drop)]
pub enum Typed {
    Query(Plan),
    Change(Change),
    /// The numbers of a stored array's versions are listed.
    Versions(Name),
    /// A stored array's schema is shown.
    Show(Name),
    /// The stored arrays are listed.
    ListArrays,
}

impl Typed {
    /// An equal statement.
    pub fn copy(&self) -> Result<Typed, Memory>
        ensures { IfOk result (λ copy. copy ≡ self.now) }
    {
        match self {
            Typed::Query(plan) => Ok(Typed::Query(plan.copy()?)),
            Typed::Change(change) => Ok(Typed::Change(change.copy()?)),
            Typed::Versions(name) => Ok(Typed::Versions(name.copy()?)),
            Typed::Show(name) => Ok(Typed::Show(name.copy()?)),
            Typed::ListArrays => Ok(Typed::ListArrays),
        }
    }
}

impl Copies for Typed {
    fn copy(&self) -> Result<Typed, Memory> {
        self.copy()
    }
}

/// What a statement's tree is over the stored arrays, or the first rule that it breaks. `text` is the statement's.
///
/// Rules are tested in this order: at a call its name, the number of its arguments, the sort of each argument from
/// left to right, where an argument that is a query is checked wholly at its turn, and then the operator's own rules.
/// Only the whole statement may create an array, change arrays or list something.
pub fn check(alloc: Global, tree: &Tree, text: &[u8], names: &Names) -> Result<Typed, TypeFault>
    requires { AreValid names.now.arrays }
    ensures { Answers result (check_of tree.now text.now names.now) }
{
    match &tree.node {
        Node::Create(name, written) => of_change(create_array(
            alloc,
            &names.arrays,
            text,
            tree.span,
            name,
            written,
        )),
        Node::Call(name, arguments) => said(
            alloc,
            text,
            names,
            tree,
            tree.span,
            name.as_slice(),
            arguments.as_slice(),
        ),
        _ => of_query(query_plan(alloc, tree, text, names)),
    }
}
