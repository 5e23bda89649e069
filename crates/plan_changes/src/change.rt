//! Changes of a database.
ghost use Rattle.std.specs.Prelude.{◌≡◌, IfOk};
ghost use Rattle.plan_changes.specs.Changes.{name_of};

use expr_nulls::{Copies, Memory, Name, Schema};
use logical_plan::Plan;

#[derive(Drop)]
pub enum Change {
    /// One more array, without versions.
    Create {
        name: Name,
        schema: Schema,
    },
    /// The plan's array is the next version. An array of this schema is made where none has the name.
    Store {
        name: Name,
        schema: Schema,
        plan: Plan,
    },
    /// The newest version with the cells of the plan's array put in is the next version.
    Insert {
        name: Name,
        schema: Schema,
        plan: Plan,
    },
    /// The array goes, and its numbers with it.
    Remove {
        name: Name,
    },
    /// The versions below this number go.
    RemoveVersions {
        name: Name,
        below: u32,
    },
}

/// Lets a change go. That its plan can be let go is proved here once, and not again in each crate that calls this.
pub fn let_go_change(change: Change) {
    drop(change)
}

impl Change {
    /// An equal change.
    pub fn copy(&self) -> Result<Change, Memory>
        ensures { IfOk result (λ copy. copy ≡ self.now) }
    {
        match self {
            Change::Create { name, schema } => Ok(Change::Create {
                name: name.copy()?,
                schema: schema.copy()?,
            }),
            Change::Store { name, schema, plan } => Ok(Change::Store {
                name: name.copy()?,
                schema: schema.copy()?,
                plan: plan.copy()?,
            }),
            Change::Insert { name, schema, plan } => Ok(Change::Insert {
                name: name.copy()?,
                schema: schema.copy()?,
                plan: plan.copy()?,
            }),
            Change::Remove { name } => Ok(Change::Remove { name: name.copy()? }),
            Change::RemoveVersions { name, below } => Ok(Change::RemoveVersions {
                name: name.copy()?,
                below: *below,
            }),
        }
    }
}

/// The name that a change is about.
pub fn changed_name(change: &Change) -> &Name
    ensures { result.now ≡ name_of change.now }
{
    match change {
        Change::Create { name, .. } => name,
        Change::Store { name, .. } => name,
        Change::Insert { name, .. } => name,
        Change::Remove { name } => name,
        Change::RemoveVersions { name, .. } => name,
    }
}

impl Copies for Change {
    fn copy(&self) -> Result<Change, Memory> {
        self.copy()
    }
}
