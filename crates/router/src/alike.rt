//! What holds of every router.

ghost use Rattle.router.specs.Routing.{IsRouter};

use crate::router::Router;

impl Router {
    /// Nothing is done: who calls it learns what holds of every router between two calls, that its tables are alike, its routes
    /// are such of prefixes of its version of IP, no count comes near its end, and that with no commit under way its devices
    /// have what its planners keep.
    pub fn alike(&self)
        ensures { IsRouter self.now }
    {
        let _ = &self.commits;
    }
}
