//! What holds of events, of turns, and of what pins see.
ghost use Rattle.array_store.specs.Databases.{StoresHaveDatabases};
ghost use Rattle.array_store.specs.ToldLaws.{NotesOutlast, OthersLeaveNotes, OthersLeavePins, PinsOutlast, PinsSeeTheSame, StoresAreTold};
ghost use Rattle.array_store.specs.ToldLaws.{TurnsAddOwn, TurnsFind};
ghost use Rattle.array_store.specs.Worked.{IsWorked};

use afl_outside::Disk;

/// The start and the events of a store tell all of it but its disk, and a change that is in doubt.
pub fn stores_are_told<D: Disk>()
    ensures { StoresAreTold D }
{}

/// A store has a database with its names, behind all its entries and under each open pin, where its file began as a database.
pub fn stores_have_databases<D: Disk>()
    ensures { StoresHaveDatabases D.moment }
{}

/// What a turn found, and what it added; and what a pin that is open sees, and which notes stand under it, whatever others do.
pub fn turns_are_seen<D: Disk>()
    ensures found { TurnsFind }
    ensures own { TurnsAddOwn }
    ensures others { OthersLeavePins }
    ensures outlast { PinsOutlast D }
    ensures notes { OthersLeaveNotes }
    ensures noted { NotesOutlast D }
    ensures sight { PinsSeeTheSame D }
{}

/// A pin sees a chunk that another session's commit has removed.
pub fn a_pin_sees_what_was()
    ensures { IsWorked }
{}
