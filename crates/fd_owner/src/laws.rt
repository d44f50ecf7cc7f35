//! Laws of histories.
ghost use Rattle.std.specs.Prelude.{◌≡◌};
ghost use Rattle.fd_events.specs.Table.{Table};
ghost use Rattle.fd_tile.specs.declared.place.Place.{Place};
ghost use Rattle.fd_owner.specs.History.{History, extend, drop_last};

/// A history that goes through an event, and then drops its last frame, is as it was. Its opening image may be any, and so may its frames.
pub fn drop_undoes_extend()
    ensures { (table : Table) (place : Place) (history : History) → drop_last (extend table place history) ≡ history }
{}
