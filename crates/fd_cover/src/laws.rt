ghost use Rattle.fd_cover.specs.SharedEdge.{SharedEdge};

/// Where two triangles share an edge and lie on opposite sides of it, no pixel is covered by both, and one whose centre lies
/// inside the edge is covered by one of them. For all triangles and pixels.
pub fn shared_edge()
    ensures { SharedEdge }
{}
