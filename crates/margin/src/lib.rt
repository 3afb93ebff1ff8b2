#![tactic(auto)]

ghost use Rattle.margin.specs.Network.{FlowsHold, PointsHold, PointWidens, FlightNear, FlowsNear, SpecificNear};

/// What working a network from point to point does to the two ends of its flows; it computes nothing.
pub fn flows_stay_near()
    ensures flows { FlowsHold }
    ensures points { PointsHold }
    ensures widens { PointWidens }
    ensures flight { FlightNear }
    ensures near { FlowsNear }
    ensures specific { SpecificNear }
{}
