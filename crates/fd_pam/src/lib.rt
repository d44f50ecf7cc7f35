//! The image format PAM, written to a sink.
#![tactic(auto)]

pub use fd_device::{Device, Failed, Progress, Sink, Source, send};
pub use writer::{PamFault, header, pam_len, write, write_body};

mod writer;
