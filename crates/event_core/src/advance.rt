//! What one entry makes of the core, in its place: nothing that stays is copied.
ghost use Rattle.std.specs.Prelude.{◌≡◌, ◌<◌, ◌-◌, ◌^◌, not, nat_eq, OnOk, OnErr, IsTrue};
ghost use Rattle.std.specs.List.{filter};
ghost use Rattle.plan_changes.specs.Allowed.{names_allow};
ghost use Rattle.event_core.specs.declared.entry.Entry.TheVariants.{Pin, Unpin, Commit, Reap};
ghost use Rattle.event_core.specs.Replay.{core_after, core_allows};

use crate::reap::reaped;
use crate::{Core, CorePin, Entry, Used};
use plan_changes::Change;
use version_reaper::{List, Memory};

/// The pins without that of a session.
fn without_session(pins: List<CorePin>, session: u32) -> List<CorePin>
    ensures { result ≡ filter (λ pin. not (nat_eq pin.session session)) pins }
{
    let mut items = pins.into_vec();
    items.retain(|pin| !(pin.session == session));
    List::from_vec(items)
}

impl Core {
    /// One more pin.
    pub fn pin(&mut self, session: u32) -> Result<(), Memory>
        requires { self.old.entries < 2 ^ 64 - 1 }
        ensures ok { OnOk result (self.new ≡ core_after self.old (Pin session)) }
        ensures err { OnErr result (self.new ≡ self.old) }
    {
        let pin = CorePin {
            session,
            place: self.entries,
            names: self.names.copy()?,
            pages: self.pages.copy()?,
        };
        self.pins.push(pin)?;
        self.entries += 1;
        Ok(())
    }

    /// The pin of a session goes. This takes no memory.
    pub fn unpin(&mut self, session: u32)
        requires { self.old.entries < 2 ^ 64 - 1 }
        ensures { self.new ≡ core_after self.old (Unpin session) }
    {
        let pins = self.pins.take();
        self.pins = without_session(pins, session);
        self.entries += 1;
    }

    /// A change that the names allow.
    pub fn commit(&mut self, session: u32, change: &Change, used: &Used) -> Result<(), Memory>
        requires room { self.old.entries < 2 ^ 64 - 1 }
        requires names { IsTrue (names_allow self.old.names change.now) }
        ensures ok { OnOk result (self.new ≡ core_after self.old (Commit session change.now used.now)) }
        ensures err { OnErr result (self.new ≡ self.old) }
    {
        let ready = self.ready(change, used)?;
        self.put(session, ready);
        Ok(())
    }

    /// All pages that nobody can name become free.
    pub fn reap(&mut self) -> Result<(), Memory>
        requires { self.old.entries < 2 ^ 64 - 1 }
        ensures ok { OnOk result (self.new ≡ core_after self.old Reap) }
        ensures err { OnErr result (self.new ≡ self.old) }
    {
        self.free = reaped(self)?;
        self.entries += 1;
        Ok(())
    }

    /// One more entry.
    pub fn advance(&mut self, entry: &Entry) -> Result<(), Memory>
        requires room { self.old.entries < 2 ^ 64 - 1 }
        requires allowed { IsTrue (core_allows self.old entry.now) }
        ensures ok { OnOk result (self.new ≡ core_after self.old entry.now) }
        ensures err { OnErr result (self.new ≡ self.old) }
    {
        match entry {
            Entry::Pin { session } => self.pin(*session),
            Entry::Unpin { session } => {
                self.unpin(*session);
                Ok(())
            }
            Entry::Commit {
                session,
                change,
                used,
            } => self.commit(*session, change, used),
            Entry::Reap => self.reap(),
        }
    }
}
