//! Laws of the session machine.
ghost use Rattle.fd_session.specs.Reversing.{BackUndoesStep, SwitchUndoesSwitch};

/// Stepping over an event and back leaves the state as it was, and so every pixel, the pipeline state and the flags.
pub fn back_undoes_step()
    ensures { BackUndoesStep }
{}

/// Switching an event over and back leaves the state as it was.
pub fn switch_undoes_switch()
    ensures { SwitchUndoesSwitch }
{}
