//! How a ledger begins: with what a settings text says.

ghost use Rattle.std.specs.Prelude.{◌≡◌, true, OnOk, IfOk};
ghost use Rattle.psb_model.specs.declared.change.Change.TheVariants.{Begun};
ghost use Rattle.psb_model.specs.Conditions.{allowed, settings_of_body};
ghost use Rattle.psb_model.specs.Effects.{after};
ghost use Rattle.psb_ledger.specs.View.{HasBegunRoom};

use super::Ledger;
use accounts::first_accounts;
use psb_bytes::{Bytes, Memory};
use psb_settings::{Settings, SettingsError, read_settings};
use std::alloc::Global;
use std::mem;

/// What a settings text says, None where it is none or was given up.
fn settings_of(alloc: Global, body: &Option<Bytes>) -> Result<Option<Settings>, Memory>
    ensures { IfOk result (λ s. s ≡ settings_of_body body.now) }
{
    let Some(text) = body else {
        return Ok(None);
    };
    match read_settings(alloc, text.as_slice()) {
        Ok(settings) => Ok(Some(settings)),
        Err(SettingsError::Bad) => Ok(None),
        Err(SettingsError::Memory) => Err(Memory),
    }
}

impl Ledger {
    pub(super) fn make_room_to_begin(&mut self, body: &Option<Bytes>) -> Result<(), Memory>
        ensures state { self.new.state ≡ self.old.state }
        ensures room { OnOk result (HasBegunRoom self.new body.now) }
    {
        let settings = settings_of(self.alloc, body)?;
        self.next_accounts = first_accounts(self.alloc, &settings)?;
        self.next = settings;
        Ok(())
    }

    // The body stands for the clauses alone, here and below: what it says was read as room was made.
    pub(super) fn may_begin(&self, body: &Option<Bytes>) -> bool
        requires { HasBegunRoom self.now body.now }
        ensures { result ≡ allowed self.now.state (Begun (record { body = body.now })) }
    {
        self.changes == 0 && self.next.is_some()
    }

    pub(super) fn begin(&mut self, body: &Option<Bytes>)
        requires room { HasBegunRoom self.old body.now }
        requires may { allowed self.old.state (Begun (record { body = body.now })) ≡ true }
        ensures { self.new.state ≡ after self.old.state (Begun (record { body = body.now })) }
    {
        self.settings = self.next.take();
        mem::swap(&mut self.accounts, &mut self.next_accounts);
        self.used = 0;
        self.changes = 1;
    }
}
