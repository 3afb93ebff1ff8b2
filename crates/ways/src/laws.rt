ghost use Rattle.ways.specs.Laws.{PassedIsOnARoute, RouteExists, ListedIsUsed, EndsAgree, GoverningAgrees, GoverningMakesTheEnd, TimeEncloses, NoneAbove, OneReaches, SlowestExists, SlowestBetween, EndsNear, EndsClose, SomeWorksheet};

/// The laws of used routes, which hold in every ready network whose worksheet keeps the facts; it computes nothing.
pub fn routes_keep_their_laws()
    ensures passed { PassedIsOnARoute }
    ensures exists { RouteExists }
    ensures listed { ListedIsUsed }
    ensures ends { EndsAgree }
    ensures governing { GoverningAgrees }
    ensures makes_the_end { GoverningMakesTheEnd }
    ensures encloses { TimeEncloses }
    ensures none_above { NoneAbove }
    ensures one_reaches { OneReaches }
    ensures slowest { SlowestExists }
    ensures between { SlowestBetween }
    ensures near { EndsNear }
    ensures close { EndsClose }
    ensures some { SomeWorksheet }
{}
