ghost use Rattle.std.specs.Prelude.{◌<◌, length, IfOk};
ghost use Rattle.cachemounts.specs.CacheViews.{AreViews};
ghost use Rattle.cachemounts.specs.CacheWants.{AreWants};

use super::viewing::{CacheView, views};
use super::wanting::wants;
use farm_base::Wants;
use solverkeys::Keyed;
use std::alloc::{AllocError, Global};

/// What the vertex of a number wants, as `wants` says. It is refused only where memory runs out.
pub fn wants_of(alloc: Global, keyed: &Keyed, vertex: usize) -> Result<Wants, AllocError>
    requires { vertex < length keyed.now.graph.vertices }
    ensures { IfOk result (AreWants keyed.now.graph keyed.now.keys vertex) }
{
    wants(alloc, keyed.graph(), vertex, keyed.keys())
}

/// What the vertex of a number wants, and what its cache mounts see, as `views` says. It is refused only where memory runs out.
pub fn views_of(
    alloc: Global,
    keyed: &Keyed,
    vertex: usize,
) -> Result<(Wants, Vec<CacheView>), AllocError>
    requires { vertex < length keyed.now.graph.vertices }
    ensures wants { IfOk result (λ given. AreWants keyed.now.graph keyed.now.keys vertex given.0) }
    ensures views { IfOk result (λ given. AreViews keyed.now.graph keyed.now.keys vertex given.0 given.1.items) }
{
    let wants = wants_of(alloc, keyed, vertex)?;
    let views = views(alloc, keyed.graph(), vertex, keyed.keys(), &wants)?;
    Ok((wants, views))
}
