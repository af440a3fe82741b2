//! What the definition of a route says, as laws: each is the contract of a function that does nothing.

ghost use Rattle.cts_route.specs.Laws.{
  RouteIsOne,
  RouteIsNotCut,
  RoutesExistOrAreCut,
  ClearWayIsRoute,
  RouteWithoutWalls,
  RoutesAreLegal,
  RoutesHaveFewCorners,
};

/// There is one route at most.
pub fn route_is_one()
    ensures { RouteIsOne }
{}

/// Points that are cut have no route.
pub fn route_is_not_cut()
    ensures { RouteIsNotCut }
{}

/// Every two spots have a route or are cut, whatever the die and the blocks.
pub fn routes_exist_or_are_cut()
    ensures { RoutesExistOrAreCut }
{}

/// Where the way along x first and then along y is clear, it is the route.
pub fn clear_way_is_route()
    ensures { ClearWayIsRoute }
{}

/// Where no block stops wires, the route runs along x first and then along y.
pub fn route_without_walls()
    ensures { RouteWithoutWalls }
{}

/// Where the blocks and the two ends lie in the die, the way of a route is legal: its steps run along
/// the axes, and no point of it is outside the die or inside a block that stops wires.
pub fn routes_are_legal()
    ensures { RoutesAreLegal }
{}

/// Where at most 64 blocks stop wires, a route has at most 17,424 corners: it passes no point of its
/// grid twice.
pub fn routes_have_few_corners()
    ensures { RoutesHaveFewCorners }
{}
