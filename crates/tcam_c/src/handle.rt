//! What C holds.

ghost use Rattle.std.specs.Prelude.{◌≡◌, Option, Some, None, IsSome, is_some, option_map};
ghost use Rattle.tcam_c.specs.declared.session.Session.{Session};
ghost use Rattle.tcam_c.specs.Owned.{held_owns};

use crate::loose::Loose;
use crate::session::Session;
use std::alloc::Global;
use std::marker::Model;
use std::mem::replace;

/// A pointer to what stands behind a handle, or none. C sees it as bytes.
#[repr(C)]
#[derive(Drop)]
pub struct Held {
    at: *mut u8,
    pub ghost session: { Option Session },
}

impl Model for Held {
    ghost also_owns = { λ h. held_owns h.at h.session };
}

impl Held {
    /// Nothing.
    pub(crate) fn none() -> Held
        ensures { result.session ≡ None }
    {
        Held {
            at: std::ptr::null_mut(),
        }
    }

    /// What the box has.
    pub(crate) fn seal(session: Loose<Session, Global>) -> Held
        ensures { result.session ≡ Some session.value }
    {
        let Loose { at, alloc: _ } = session;
        Held { at: at as *mut u8 }
    }

    /// The box again.
    pub(crate) fn unseal(self, alloc: Global) -> Loose<Session, Global>
        requires { IsSome self.session }
        ensures { self.session ≡ Some result.value }
    {
        let Held { at } = self;
        Loose {
            at: at as *mut Session,
            alloc,
        }
    }
}

/// A handle: whether there is a manager, and what stands behind it. All zeros is a handle without a manager.
#[repr(C)]
#[derive(Drop)]
pub struct TcamManager {
    pub made: bool,
    pub held: Held,
    pub ghost tied: { made ≡ is_some held.session },
}

impl TcamManager {
    /// Takes out what stands behind the handle, for the time of a call.
    pub(crate) fn take(&mut self, alloc: Global) -> Option<Box<Session>>
        ensures taken { self.old.held.session ≡ option_map (λ session. session.value) result }
        ensures left { self.new.held.session ≡ None }
    {
        let empty = TcamManager {
            made: false,
            held: Held::none(),
        };
        let TcamManager { made, held } = replace(self, empty);
        if !made {
            return None;
        }
        Some(held.unseal(alloc).into_box())
    }

    /// Puts it back.
    pub(crate) fn put(&mut self, session: Box<Session>)
        ensures { self.new.held.session ≡ Some session.value }
    {
        let full = TcamManager {
            made: true,
            held: Held::seal(Loose::of(session)),
        };
        let _empty = replace(self, full);
    }
}
