//! The law of the crew, over the definitions alone.
ghost use Rattle.fd_crew.specs.World.{CrewWorld};

/// In every run of the crew's world, wherever each lane begins and whatever the order of its steps, each lane's list is its opening list extended by the next
/// events or, once all workers have left, a front of its opening list. No lane comes below all openings.
/// When all workers have left and no lane is above the fence, all lanes stand at it: at the target, or at the least position at which a lane refused.
pub fn crew_world()
    ensures { CrewWorld }
{}
