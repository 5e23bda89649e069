//! What opens the files that the program's words name.
ghost use Rattle.std.specs.Prelude.{◌≡◌, ℕ, List, IfOk, OnErr, ◌⊎◌};
ghost use Rattle.afl_outside.specs.Counts.{Rose};
ghost use Rattle.afl_outside.specs.Source.{IsNewSource};
ghost use Rattle.afl_outside.specs.Sink.{IsNewSink};
ghost use Rattle.afl_outside.specs.Disk.{IsNewDisk};
ghost use Rattle.afl_outside.specs.Shelf.{ShelfState, LeavesOthers, KeepsWord, Hands};

use crate::{Disk, Failed, Sink, Source};

/// What opens the names that the program's words give: scripts, replies and devices. The name `-` means the standard
/// streams. A shelf may tell of a name that it opens it, and with which first bytes; the call then succeeds, or finds no
/// memory. What is handed out has the name that was asked, where it tells names, and counts of 0, and what it has left,
/// holds or reads as is still its first bytes. The replies and devices that it hands out, which alone can be written, are
/// counted. A call fails only where the count of faults or that of wants rises.
pub trait Shelf {
    type S: Source + Send + Drop;

    type K: Sink + Send + Drop;

    type Device: Disk + Send + Drop;

    ghost state: { Self → ShelfState };

    /// Opens a script, and leaves what is told of replies.
    fn script(&mut self, name: &str) -> Result<Self::S, Failed>
        ensures handed { IfOk result (λ s. IsNewSource name.now (Self.S.state s)) }
        ensures told { KeepsWord ((state self.old).scripts name.now) (state self.old).wants (state self.new).wants (λ s. (Self.S.state s).first) result }
        ensures others { LeavesOthers name.now (state self.old) (state self.new) }
        ensures counted { (state self.new).handed ≡ (state self.old).handed }
        ensures replies { (n : List ℕ) → (state self.new).replies n ≡ (state self.old).replies n }
        ensures cause { OnErr result (Rose (state self.old).faults (state self.new).faults ⊎ Rose (state self.old).wants (state self.new).wants) };

    /// Opens a reply.
    fn reply(&mut self, name: &str) -> Result<Self::K, Failed>
        ensures handed { IfOk result (λ k. IsNewSink name.now (Self.K.state k)) }
        ensures told { KeepsWord ((state self.old).replies name.now) (state self.old).wants (state self.new).wants (λ k. (Self.K.state k).first) result }
        ensures others { LeavesOthers name.now (state self.old) (state self.new) }
        ensures counted { Hands (state self.old).handed (state self.new).handed result }
        ensures cause { OnErr result (Rose (state self.old).faults (state self.new).faults ⊎ Rose (state self.old).wants (state self.new).wants) };

    /// Opens a device.
    fn device(&mut self, name: &str) -> Result<Self::Device, Failed>
        ensures handed { IfOk result (λ d. IsNewDisk name.now (Self.Device.moment d).state) }
        ensures told { KeepsWord ((state self.old).devices name.now) (state self.old).wants
            (state self.new).wants (λ d. (Self.Device.moment d).state.first) result }
        ensures others { LeavesOthers name.now (state self.old) (state self.new) }
        ensures counted { Hands (state self.old).handed (state self.new).handed result }
        ensures cause { OnErr result (Rose (state self.old).faults (state self.new).faults ⊎ Rose (state self.old).wants (state self.new).wants) };

    /// How often it has found no memory of its own. The count never falls.
    fn wants(&self) -> u64
        ensures { result ≡ (state self.now).wants };

    /// How often it has failed, but for want of memory. The count never falls.
    fn faults(&self) -> u64
        ensures { result ≡ (state self.now).faults };
}
