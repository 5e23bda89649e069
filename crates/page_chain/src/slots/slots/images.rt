//! What a crash leaves of a database's file, by what is known of its slots. No code has to be run for it.

ghost use Rattle.std.specs.Prelude.{◌≡◌, List, ℕ, false};
ghost use Rattle.page_chain.specs.Opens.{OpensAs};
ghost use Rattle.page_chain.specs.declared.slots.layout.roots.OpenRoot.{OpenRoot};
ghost use Rattle.page_chain.specs.declared.slots.layout.logs.RecordAt.{RecordAt};
ghost use Rattle.page_chain.specs.Standing.{IsSound, IsTarget, HasTarget, MayOpen};

use crate::slots::slots::Slots;
use afl_outside::Disk;

/// A file opens as one root with one log.
pub fn opens_as_one_root()
    ensures { (a b : OpenRoot) (first second : List RecordAt) (file : List ℕ) → OpensAs a first file → OpensAs b second file → (a ≡ b) × (first ≡ second) }
{}

/// Whatever a crash leaves now opens as it did, or with the slot that is being opened.
pub fn images_open<D: Disk>(slots: &Slots, disk: &D)
    ensures { (seen image : List ℕ) → IsSound slots.now seen (D.moment disk.now).may_leave → (D.moment disk.now).may_leave image → MayOpen slots.now image }
{}

/// Where no slot is doubtful, whatever a crash leaves now opens as the current root with the records of the log.
pub fn images_open_as_current<D: Disk>(slots: &Slots, disk: &D)
    requires { slots.now.doubtful ≡ false }
    ensures { (seen image : List ℕ) → IsSound slots.now seen (D.moment disk.now).may_leave
        → (D.moment disk.now).may_leave image → OpensAs slots.now.current slots.now.records image }
{}

/// The gate and the body of the target lie in page 0 or in the log page, which each image has.
pub fn slots_lie_in_pages<D: Disk>(slots: &Slots, disk: &D)
    requires { IsTarget slots.now }
    ensures { (seen image : List ℕ) → IsSound slots.now seen (D.moment disk.now).may_leave → (D.moment disk.now).may_leave image → HasTarget slots.now image }
{}
