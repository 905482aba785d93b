//! Which folders a definition uses.

use cachemounts::{CacheView, needs_home, views_of};
use farm_base::Wants;
use opsproto::read_definition;
use solverkeys::Keyed;
use std::alloc::{AllocError, Global};
use vertices::load;

/// Adds what a vertex wants, and whether that needs a home.
fn add_wants(
    alloc: Global,
    text: &mut String,
    vertex: usize,
    wants: &Wants,
) -> Result<(), AllocError> {
    for want in wants.as_slice() {
        let folder = want.folder.to_text(alloc)?;
        let writable = want.writable;
        write!(
            text,
            "vertex {vertex} wants {folder}, writable {writable}\n"
        )?;
    }
    if needs_home(wants) {
        write!(text, "vertex {vertex} needs a home\n")?;
    }
    Ok(())
}

/// Adds the place of the want that each cache mount of a vertex sees.
fn add_views(text: &mut String, vertex: usize, views: &[CacheView]) -> Result<(), AllocError> {
    for CacheView { mount, want } in views {
        write!(text, "vertex {vertex}: mount {mount} sees want {want}\n")?;
    }
    Ok(())
}

/// For each vertex its wants, whether they need a home, and the place of the want that each cache mount sees.
fn shown(alloc: Global, keyed: &Keyed) -> Result<String, AllocError> {
    let mut text = String::new(alloc);
    for vertex in 0..keyed.graph().len() {
        let (wants, views) = views_of(alloc, keyed, vertex)?;
        add_wants(alloc, &mut text, vertex, &wants)?;
        add_views(&mut text, vertex, views.as_slice())?;
    }
    Ok(text)
}

/// The folders of the definition that these bytes spell.
pub fn folders(alloc: Global, bytes: Vec<u8>) -> anyhow::Result<String> {
    let graph = load(alloc, read_definition(alloc, bytes)?)?;
    let keyed = Keyed::of(alloc, graph)?;
    Ok(shown(alloc, &keyed)?)
}
