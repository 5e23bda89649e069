//! What holds of each store.
ghost use Rattle.std.specs.Prelude.{IfSome};
ghost use Rattle.afl_outside.specs.Disk.{DiskGoesOn};
ghost use Rattle.store_ledger.specs.Ledger.{IsLedger};
ghost use Rattle.store_opening.specs.At.{AreParts, standing};
ghost use Rattle.array_store.specs.Growth.{IsCounted};
ghost use Rattle.array_store.specs.Kept.{HasFailed};

use crate::store::Store;
use crate::store::store::is_ledger;
use afl_outside::Disk;

impl<D: Disk> Store<D> {
    /// What a store keeps at each moment: entries and notes are those of a ledger, each commit has its moment and its directory, and the disk is
    /// the one that was opened, some calls later. This does nothing.
    pub fn is_at(&self)
        ensures at { AreParts D.moment self.now }
        ensures ledger { IsLedger self.now.ledger }
        ensures counted { IsCounted (standing D.moment self.now) }
        ensures goes_on { DiskGoesOn (D.moment self.now.opened.value.disk).state (D.moment self.now.file.disk).state }
        ensures doubt { IfSome self.now.doubt (λ _. HasFailed (D.moment self.now.opened.value.disk).state (D.moment self.now.file.disk).state) }
    {
        is_ledger(&self.parts.ledger);
    }
}
