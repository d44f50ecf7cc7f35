//! Values of a capture, taken from the tokens of its text.
ghost use Rattle.std.specs.Prelude.{◌≡◌, ◌<◌, length, Some, None, Err, IfOk, OnOk};
ghost use Rattle.serde_json.specs.Data.{Data};
ghost use Rattle.fd_json.specs.Taken.{taken};

use crate::scope::Scope;
use fd_json::Stop;
use json::Reader;

/// A value that is taken from the tokens of a text.
pub(crate) trait FromTokens: Sized {
    ghost use Rattle.std.specs.Prelude.{Option};
    ghost use Rattle.serde_json.specs.Data.{Data};

    /// What a JSON value stands for, if it is one of these.
    ghost of_data: { Data → Option Self };

    /// The next value, if it is one of these. Any other value is passed.
    fn next(reader: &mut Reader<'_>, scope: Scope) -> Result<Option<Self>, Stop>
        ensures ok { IfOk result (λ x. (d : Data) × (taken scope.depth reader.old ≡ Some (d, reader.new)) × (x ≡ of_data d)) }
        ensures refused { result ≡ Err Stop.NotJson → taken scope.depth reader.old ≡ None }
        ensures shorter { OnOk result (length reader.new < length reader.old) };
}
