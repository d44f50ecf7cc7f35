ghost use Rattle.std.specs.Prelude.{◌≡◌, ◌≤◌, length, string_bytes};
ghost use Rattle.std.specs.List.{list_any};
ghost use Rattle.fd_events.specs.Label.{is_control};

use arrayvec::ArrayString;
use std::marker::Model;
use thiserror::Error;

/// The most bytes that a marker's name has.
pub const MAX_LABEL_LEN: usize = 64;

/// Why a text is no marker's name. The faults are checked in this order.
#[derive(Clone, Copy, PartialEq, Eq, Debug, Error)]
pub enum LabelFault {
    /// The text has more than `MAX_LABEL_LEN` bytes.
    #[error("the name is too long")]
    TooLong,
    /// It has a character below U+0020, or U+007F.
    #[error("the name has a control character")]
    Control,
}

/// A marker's name.
#[derive(Debug, Drop)]
pub struct Label {
    // in the event itself, which has room for the largest kind, so that a name takes no memory of its own
    text: ArrayString<MAX_LABEL_LEN>,
}

impl Model for Label {
    ghost use Rattle.std.specs.Prelude.{List, ℕ, ◌≡◌, Ok};
    ghost use Rattle.fd_events.specs.Label.{labelled};

    ghost Value = { List ℕ };

    ghost view = { λ l. l.text.bytes };

    ghost invariant = { λ l. labelled l.text.bytes ≡ Ok l.text.bytes };
}

impl Label {
    ghost use Rattle.fd_events.specs.Label.{labelled};
    ghost use Rattle.fd_events.specs.Limits.{most_label_bytes};

    /// A name of this text, which is dropped on a refusal.
    pub fn new(text: String) -> Result<Label, LabelFault>
        ensures { result ≡ labelled (string_bytes text) }
    {
        Label::of(&text)
    }

    /// A name of a copy of this text, which takes no memory.
    pub fn of(text: &str) -> Result<Label, LabelFault>
        ensures { result ≡ labelled text.now }
    {
        let Ok(copy) = ArrayString::from(text) else {
            return Err(LabelFault::TooLong);
        };
        if has_control(text.as_bytes()) {
            return Err(LabelFault::Control);
        }
        Ok(Label { text: copy })
    }

    /// The name's text.
    pub fn as_str(&self) -> &str
        ensures value { result.now ≡ self.now }
        ensures short { length result.now ≤ most_label_bytes }
    {
        self.text.as_str()
    }
}

/// Whether a text has a character below U+0020, or U+007F.
fn has_control(text: &[u8]) -> bool
    ensures { result ≡ list_any is_control text.now }
{
    text.iter().any(|b| *b < 0x20 || *b == 0x7f)
}
