ghost use Rattle.std.specs.Prelude.{◌≡◌, ◌≢◌, ℕ};
ghost use Rattle.vertices.specs.Loading.{GraphParts, IsGraph};
ghost use Rattle.solverkeys.specs.GraphKeys.{IsShapeOf};
ghost use Rattle.solverkeys.specs.Shapes.{Shape, HasIndexes, shape_key, ShowCollision};

/// Equal shapes have equal keys, and two different shapes with one key show a collision of SHA-256
/// among the byte strings that are hashed for them.
pub fn keys_tell_shapes()
    ensures equal { (one other : Shape) → one ≡ other → shape_key one ≡ shape_key other }
    ensures different { (one other : Shape) → HasIndexes one → HasIndexes other → one ≢ other
        → shape_key one ≡ shape_key other → ShowCollision one other }
{}

/// A vertex of a graph has one shape.
pub fn shape_is_determined()
    ensures { (g : GraphParts) (one other : Shape) (number : ℕ) → IsShapeOf g one number → IsShapeOf g other number → one ≡ other }
{}

/// The shapes of a graph's vertices have indexes below 2^64, as the law on different shapes asks.
pub fn shapes_have_indexes()
    ensures { (g : GraphParts) (shape : Shape) (number : ℕ) → IsGraph g → IsShapeOf g shape number → HasIndexes shape }
{}
