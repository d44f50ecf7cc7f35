//! What goes along with a reader.
ghost use Rattle.std.specs.Prelude.{◌≡◌, ◌<◌, ◌-◌};

use std::alloc::Global;

/// How a value is read: where its memory comes from, as of which version of captures, and how deep its arrays and objects may nest.
#[derive(Clone, Copy)]
pub(crate) struct Scope {
    pub(crate) alloc: Global,
    pub(crate) version: u32,
    pub(crate) depth: usize,
}

impl Scope {
    /// That of the values within an array or an object.
    pub(crate) fn inner(self) -> Scope
        requires { 0 < self.depth }
        ensures version { result.version ≡ self.version }
        ensures depth { result.depth ≡ self.depth - 1 }
    {
        Scope {
            depth: self.depth - 1,
            ..self
        }
    }
}
