ghost use Rattle.std.specs.Prelude.{◌≡◌};
ghost use Rattle.fd_tile.specs.Place.{IsTilePlace};

use crate::place::Place;
use std::marker::Model;

/// Where a tile lies, in six bytes.
#[derive(Drop)]
pub(crate) struct Corner {
    left: u16,
    top: u16,
    width: u8,
    height: u8,
}

impl Model for Corner {
    ghost use Rattle.fd_tile.specs.declared.place.Place.{Place};

    ghost Value = { Place };

    ghost view = { λ c. record { left = c.left; top = c.top; width = c.width; height = c.height } };
}

impl Corner {
    /// Of the place of a tile.
    pub(crate) fn of(place: Place) -> Corner
        requires { IsTilePlace place }
        ensures { result ≡ place }
    {
        Corner {
            left: place.left as u16,
            top: place.top as u16,
            width: place.width as u8,
            height: place.height as u8,
        }
    }

    /// The place.
    pub(crate) fn get(&self) -> Place
        ensures { result ≡ self.now }
    {
        Place {
            left: self.left as u32,
            top: self.top as u32,
            width: self.width as u32,
            height: self.height as u32,
        }
    }
}
