//! From a schedule to its picture.
ghost use Rattle.std.specs.Prelude.{◌≡◌, ◌<◌, ◌^◌, IfOk, OnOk};
ghost use Rattle.std.specs.String.{string_bytes};
ghost use Rattle.world.specs.Setups.{IsSetup};
ghost use Rattle.world.specs.Shown.{shown};
ghost use Rattle.draw.specs.Drawings.{farm_after, scene_of, extent_of, IsPictureIn, IsPicture};

use super::lifelines::lines_of;
use super::page::{Extent, page_of};
use super::picture::{frames_from, skip, started};
use super::range::Range;
use super::scene::Scene;
use schedule::{Event, Setup};
use std::alloc::{AllocError, Global};
use world::{World, print_lines};

/// The scene of the events from `skipped` to `last`, which the farm carries out.
fn scene_of(
    alloc: Global,
    world: &mut World,
    nodes: u32,
    events: &[Event],
    range: Range,
) -> Result<Scene, AllocError>
    requires { nodes < 2 ^ 31 }
    ensures scene { IfOk result (λ scene. scene ≡ scene_of (shown world.old) nodes events.now range) }
    ensures farm { OnOk result (shown world.new ≡ farm_after (shown world.old) events.now range) }
{
    let skipped = range.skipped(events.len());
    let last = range.drawn_to(events.len());
    skip(alloc, world, &events[..skipped])?;
    let frames = frames_from(alloc, world, skipped as u64 + 1, &events[skipped..last])?;
    let lines = lines_of(alloc, nodes, frames.as_slice())?;
    Ok(Scene { lines, frames })
}

fn extent_of(nodes: u32, events: &[Event], range: Range) -> Extent
    ensures { result ≡ extent_of nodes events.now range }
{
    Extent {
        first: range.skipped(events.len()) + 1,
        last: range.drawn_to(events.len()),
        events: events.len(),
        nodes,
    }
}

/// The picture of a range of events, which the farm carries out.
fn drawn(
    alloc: Global,
    world: &mut World,
    nodes: u32,
    events: &[Event],
    range: Range,
) -> Result<String, AllocError>
    requires { nodes < 2 ^ 31 }
    ensures { IfOk result (λ text. IsPictureIn (shown world.old) nodes events.now range (string_bytes text)) }
{
    let scene = scene_of(alloc, world, nodes, events, range)?;
    let lines = print_lines(alloc, world)?;
    let extent = extent_of(nodes, events, range);
    page_of(alloc, extent, &scene, lines.as_str().as_bytes())
}

/// The picture of a range of a schedule's events. The lines of versions under it are those after the last of them.
pub fn draw(
    alloc: Global,
    setup: Setup,
    events: &[Event],
    range: Range,
) -> Result<String, AllocError>
    requires { IsSetup setup }
    ensures { IfOk result (λ text. IsPicture setup events.now range (string_bytes text)) }
{
    let mut world = started(alloc, setup)?;
    drawn(alloc, &mut world, setup.nodes, events, range)
}
