//! The format: a frame is told by the next hops that have a number.

ghost use Rattle.std.specs.Prelude.{◌≡◌, ◌++◌, [], OnOk, map};
ghost use Rattle.fpm_routes.specs.Telling.{change_after, change_text, changes_after, changes_text, commit_text, fpm_after, fpm_told};
ghost use Rattle.fpm_routes.specs.Views.{change_of};

use crate::changes::{Change, Deed, read_changes};
use crate::telling::{put_commit, put_drop, put_note, put_put, put_why};
use fpm_frames::FrameFormat;
use import_lines::Told;
use ip_routes::{Hops, number_way};
use rule_model::IpVersion;
use std::alloc::{AllocError, Global};
use std::marker::Model;

/// Messages of a routing daemon's FPM stream, told for one version of IP.
#[derive(Drop)]
pub struct FpmRoutes {
    version: IpVersion,
    // The next hops that have a number, the first of them 1.
    hops: Hops,
}

impl Model for FpmRoutes {
    ghost use Rattle.fpm_routes.specs.Telling.{Known};

    ghost Value = { Known };

    ghost view = { λ f. record { version = f.version; hops = f.hops } };
}

impl FpmRoutes {
    /// No frame is read yet. Takes no memory.
    pub fn new(alloc: Global, version: IpVersion) -> FpmRoutes
        ensures { result ≡ record { version = version; hops = [] } }
    {
        FpmRoutes {
            version,
            hops: Hops::new(alloc),
        }
    }

    /// The version of IP.
    fn version(&self) -> IpVersion
        ensures { result ≡ self.now.version }
    {
        self.version
    }

    /// Puts what a change has in the script there.
    fn tell(&mut self, alloc: Global, change: &Change, into: &mut Vec<u8>) -> Result<(), AllocError>
        ensures text { OnOk result (into.new.items ≡ into.old.items ++ change_text self.old (change_of change.now)) }
        ensures known { OnOk result (self.new ≡ change_after self.old (change_of change.now)) }
    {
        match change.deed {
            Deed::Put => {
                let number = number_way(alloc, &mut self.hops, change.words.as_slice(), into)?;
                put_put(into, self.version, &change.prefix, number)
            }
            Deed::Drop => put_drop(into, self.version, &change.prefix),
            Deed::Note => put_note(into, change.words.as_slice()),
        }
    }

    /// Puts what the changes of a frame have there.
    fn tell_all(
        &mut self,
        alloc: Global,
        changes: &[Change],
        into: &mut Vec<u8>,
    ) -> Result<(), AllocError>
        ensures text { OnOk result (into.new.items ≡ into.old.items ++ changes_text self.old (map change_of changes.now)) }
        ensures known { OnOk result (self.new ≡ changes_after self.old (map change_of changes.now)) }
    {
        for change in changes {
            self.tell(alloc, change, into)?;
        }
        Ok(())
    }
}

impl FrameFormat for FpmRoutes {
    ghost told = { fpm_told };

    ghost behind = { fpm_after };

    fn take(
        &mut self,
        alloc: Global,
        messages: &[u8],
        into: &mut Vec<u8>,
    ) -> Result<Told, AllocError> {
        let mut changes = Vec::new(alloc);
        match read_changes(alloc, self.version(), messages, &mut changes)? {
            Ok(()) => {
                self.tell_all(alloc, changes.as_slice(), into)?;
                put_commit(into, changes.as_slice())?;
                Ok(Told::Said)
            }
            Err(unsaid) => {
                put_why(into, unsaid)?;
                Ok(Told::Unsaid)
            }
        }
    }
}
