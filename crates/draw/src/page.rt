//! The picture as a whole.
ghost use Rattle.std.specs.Prelude.{◌≡◌, ◌++◌, OnOk, IfOk, count_by};
ghost use Rattle.std.specs.List.{flat_map};
ghost use Rattle.std.specs.String.{string_bytes};
ghost use Rattle.draw.specs.Pages.{view_text, root_text, open_text, events_text, nodes_text, extent_text, head_text, name_text, named_text, drop_text, lifeline_text, lifelines_text, is_break, version_byte, shown, shown_text, versions_text, width_of, height_of, begun_text, headed_text, body_text, foot_y, foot_text, page_text};
ghost use Rattle.draw.specs.Shapes.{mark_text};

use super::escape::{front_of, push_byte, push_dots};
use super::frame::Frame;
use super::mark::Mark;
use super::marking::marks_of;
use super::scene::Scene;
use super::shape::{push_mark, push_point, push_size, x_of, y_of};
use std::alloc::{AllocError, Global};

/// Which events are drawn, counted from 1, of how many, on a farm of how many nodes.
#[derive(Clone, Copy)]
pub struct Extent {
    pub first: usize,
    pub last: usize,
    pub events: usize,
    pub nodes: u32,
}

/// The most bytes of the lines of versions that are drawn.
pub const MOST_LINES: usize = 65_536;

/// The names of SVG.
pub const NAMESPACE: &str = "http://www.w3.org/2000/svg";

/// Colours that colour-blind readers tell apart, on light and on dark; each end of a lease has dashes of its own besides.
pub const STYLE: &str = "<style>
text{font:12px ui-monospace,Menlo,Consolas,'DejaVu Sans Mono',monospace;fill:#1b1b1b}
.paper{fill:#fff}
.head,.name{font-weight:bold}.name{text-anchor:middle}
.number{font-size:10px;text-anchor:middle;dominant-baseline:central;stroke:#fff;stroke-width:4px;paint-order:stroke}
.row{stroke:#e8e8e8}.line{stroke:#9a9a9a;stroke-dasharray:2 4}
.life{fill:#c4c4c4}.run{fill:#1b1b1b}
.committed,.released,.withdrawn,.died,.restarted,.open{stroke-width:1.5;fill-opacity:.3}
.committed{fill:#009e73;stroke:#009e73;fill-opacity:1}
.released{fill:#56b4e9;stroke:#56b4e9;stroke-dasharray:2 2}
.withdrawn{fill:#d55e00;stroke:#d55e00;stroke-dasharray:7 3}
.died{fill:#cc79a7;stroke:#cc79a7;stroke-dasharray:7 2 2 2}
.restarted{fill:#0072b2;stroke:#0072b2;stroke-dasharray:3 5}
.open{fill:#e69f00;stroke:#e69f00}
.arrow,.lost{fill:none;stroke:#1b1b1b}.arrow{stroke-width:1.2;marker-end:url(#tip)}
.lost{stroke:#d55e00;stroke-dasharray:5 3;marker-end:url(#gone)}
.plain{fill:#1b1b1b}.started{fill:#fff;stroke:#1b1b1b;stroke-width:1.5}
.refused{fill:none;stroke:#d55e00;stroke-width:2.5}
.failed{fill:#d55e00;stroke:#d55e00}.armed{fill:#fff;stroke:#d55e00;stroke-width:1.5}
.tip{fill:#1b1b1b}.gone{fill:none;stroke:#d55e00;stroke-width:1.5}
@media (prefers-color-scheme:dark){
text{fill:#e8e8e8}.paper{fill:#15181c}.number{stroke:#15181c}
.row{stroke:#2a2f36}.line{stroke:#767676}.life{fill:#565c64}.run,.plain,.tip{fill:#f4f4f4}
.arrow{stroke:#e8e8e8}.started{fill:#15181c;stroke:#e8e8e8}.armed{fill:#15181c}
.restarted{fill:#4aa3dd;stroke:#4aa3dd}}
</style>
<defs><marker id='tip' viewBox='0 0 10 10' refX='13' refY='5' markerWidth='8' markerHeight='8' orient='auto'><path class='tip' d='M0 1L10 5L0 9z'/></marker>
<marker id='gone' viewBox='0 0 10 10' refX='5' refY='5' markerWidth='9' markerHeight='9'><path class='gone' d='M1 1L9 9M9 1L1 9'/></marker></defs>
<rect class='paper' width='100%' height='100%'/>
";

/// What the marks mean.
pub const LEGEND: &str =
    "<rect class='life' x='20' y='42' width='8' height='14' rx='2'/><text x='33' y='53'>life</text>
<rect class='run' x='76' y='42' width='3' height='14' rx='2'/><text x='84' y='53'>execution</text>
<text x='164' y='53'>lease:</text>
<rect class='committed' x='214' y='42' width='9' height='14' rx='2'/><text x='228' y='53'>committed</text>
<rect class='released' x='306' y='42' width='9' height='14' rx='2'/><text x='320' y='53'>released</text>
<rect class='withdrawn' x='391' y='42' width='9' height='14' rx='2'/><text x='405' y='53'>withdrawn</text>
<rect class='died' x='483' y='42' width='9' height='14' rx='2'/><text x='497' y='53'>its node started</text>
<rect class='restarted' x='626' y='42' width='9' height='14' rx='2'/><text x='640' y='53'>restart</text>
<rect class='open' x='704' y='42' width='9' height='14' rx='2'/><text x='718' y='53'>live</text>
<path class='refused' d='M20 65l8 8m0-8l-8 8'/><text x='33' y='73'>refused</text>
<path class='started' d='M98 74l5-10l5 10z'/><text x='113' y='73'>start</text>
<path class='armed' d='M164 63l6 6l-6 6l-6-6z'/><text x='175' y='73'>save will fail</text>
<path class='failed' d='M292 63l6 6l-6 6l-6-6z'/><text x='303' y='73'>save failed</text>
<path class='lost' d='M398 69h22'/><text x='432' y='73'>not delivered</text>
";

/// Adds what is seen of the whole: all.
#[tactic(auto, unfolding(crate::specs::Pages::view_text))]
fn push_view(text: &mut String, width: u128, height: u128) -> Result<(), AllocError>
    ensures { OnOk result (string_bytes text.new ≡ string_bytes text.old ++ view_text width height) }
{
    text.push_str("' viewBox='0 0 ")?;
    push_point(text, width, height)?;
    text.push_str("'>\n")
}

/// Adds the beginning of the whole.
#[tactic(auto, unfolding(crate::specs::Pages::root_text))]
fn push_root(text: &mut String, namespace: &str) -> Result<(), AllocError>
    ensures { OnOk result (string_bytes text.new ≡ string_bytes text.old ++ root_text namespace.now) }
{
    write!(text, "<svg xmlns='{namespace}")
}

/// Adds the size of the whole.
fn push_open(
    text: &mut String,
    namespace: &str,
    width: u128,
    height: u128,
) -> Result<(), AllocError>
    ensures { OnOk result (string_bytes text.new ≡ string_bytes text.old ++ open_text namespace.now width height) }
{
    push_root(text, namespace)?;
    push_size(text, width, height)?;
    push_view(text, width, height)
}

/// Adds which events are drawn.
fn push_events(text: &mut String, extent: Extent) -> Result<(), AllocError>
    ensures { OnOk result (string_bytes text.new ≡ string_bytes text.old ++ events_text extent) }
{
    let (first, last, events) = (extent.first, extent.last, extent.events);
    write!(text, "events {first} to {last} of {events}")
}

/// Adds how many nodes are drawn.
fn push_nodes(text: &mut String, drawn: usize, nodes: u32) -> Result<(), AllocError>
    ensures { OnOk result (string_bytes text.new ≡ string_bytes text.old ++ nodes_text drawn nodes) }
{
    write!(text, ", {drawn} of {nodes} nodes")
}

/// Adds how much of what there is is drawn.
fn push_extent(text: &mut String, extent: Extent, scene: &Scene) -> Result<(), AllocError>
    ensures { OnOk result (string_bytes text.new ≡ string_bytes text.old ++ extent_text extent scene.now) }
{
    let drawn = scene.lines.len().saturating_sub(1);
    push_events(text, extent)?;
    push_nodes(text, drawn, extent.nodes)
}

/// Adds what it is of.
fn push_head(text: &mut String, extent: Extent, scene: &Scene) -> Result<(), AllocError>
    ensures { OnOk result (string_bytes text.new ≡ string_bytes text.old ++ head_text extent scene.now) }
{
    text.push_str("<text class='head' x='20' y='28'>")?;
    push_extent(text, extent, scene)?;
    text.push_str("</text>\n")
}

/// Adds the name of a lifeline.
fn push_name(text: &mut String, line: u32) -> Result<(), AllocError>
    ensures { OnOk result (string_bytes text.new ≡ string_bytes text.old ++ name_text line) }
{
    if line == 0 {
        text.push_str("coordinator")
    } else {
        write!(text, "node {line}")
    }
}

/// Adds the name above a lifeline.
fn push_named(text: &mut String, column: usize, line: u32) -> Result<(), AllocError>
    ensures { OnOk result (string_bytes text.new ≡ string_bytes text.old ++ named_text column line) }
{
    let x = x_of(column);
    write!(text, "<text class='name' x='{x}' y='92'>")?;
    push_name(text, line)?;
    text.push_str("</text>")
}

/// Adds the line itself.
fn push_drop(text: &mut String, rows: usize, column: usize) -> Result<(), AllocError>
    ensures { OnOk result (string_bytes text.new ≡ string_bytes text.old ++ drop_text rows column) }
{
    let (x, bottom) = (x_of(column), y_of(rows));
    write!(text, "<path class='line' d='M{x} 98V{bottom}'/>\n")
}

/// Adds a lifeline.
fn push_lifeline(text: &mut String, rows: usize, column: usize, line: u32) -> Result<(), AllocError>
    ensures { OnOk result (string_bytes text.new ≡ string_bytes text.old ++ lifeline_text rows column line) }
{
    push_named(text, column, line)?;
    push_drop(text, rows, column)
}

/// Adds the lifelines.
fn push_lifelines(text: &mut String, rows: usize, lines: &[u32]) -> Result<(), AllocError>
    ensures { OnOk result (string_bytes text.new ≡ string_bytes text.old ++ lifelines_text rows 0 lines.now) }
{
    let mut column = 0;
    for line in lines {
        push_lifeline(text, rows, column, *line)?;
        column += 1;
    }
    Ok(())
}

/// Adds the marks.
fn push_marks(text: &mut String, frames: &[Frame], marks: &[Mark]) -> Result<(), AllocError>
    ensures { OnOk result (string_bytes text.new ≡ string_bytes text.old ++ flat_map (mark_text frames.now) marks.now) }
{
    for mark in marks {
        push_mark(text, frames, *mark)?;
    }
    Ok(())
}

/// Whether what follows stands on a line of its own.
fn is_break(byte: u8) -> bool
    ensures { result ≡ is_break byte }
{
    byte == b'\n' || byte == b' '
}

/// How many lines begin within these bytes.
fn breaks_in(bytes: &[u8]) -> usize
    ensures { result ≡ count_by is_break bytes.now }
{
    let mut count = 0;
    for byte in bytes {
        if is_break(*byte) {
            count += 1;
        }
    }
    count
}

/// Adds a byte of the lines of versions.
fn push_version_byte(text: &mut String, byte: u8) -> Result<(), AllocError>
    ensures { OnOk result (string_bytes text.new ≡ string_bytes text.old ++ version_byte byte) }
{
    match byte {
        b'\n' => text.push_str("</tspan><tspan x='20' dy='16'>"),
        b' ' => text.push_str("</tspan><tspan x='36' dy='16'>"),
        _ => push_byte(text, byte),
    }
}

/// Adds bytes of the lines of versions.
fn push_version_bytes(text: &mut String, bytes: &[u8]) -> Result<(), AllocError>
    ensures { OnOk result (string_bytes text.new ≡ string_bytes text.old ++ flat_map version_byte bytes.now) }
{
    for byte in bytes {
        push_version_byte(text, *byte)?;
    }
    Ok(())
}

/// The lines of versions that are drawn.
#[tactic(auto, unfolding(crate::specs::Pages::shown))]
fn shown(lines: &[u8]) -> &[u8]
    ensures { result.now ≡ shown lines.now }
{
    front_of(MOST_LINES, lines)
}

/// Adds what is shown of the lines of versions.
fn push_shown(text: &mut String, lines: &[u8]) -> Result<(), AllocError>
    ensures { OnOk result (string_bytes text.new ≡ string_bytes text.old ++ shown_text lines.now) }
{
    push_version_bytes(text, shown(lines))?;
    push_dots(text, MOST_LINES, lines)
}

/// Adds the lines of versions.
#[tactic(auto, unfolding(crate::specs::Pages::versions_text))]
fn push_versions(text: &mut String, y: u128, lines: &[u8]) -> Result<(), AllocError>
    ensures { OnOk result (string_bytes text.new ≡ string_bytes text.old ++ versions_text y lines.now) }
{
    write!(text, "<text class='versions' y='{y}'><tspan x='20'>")?;
    push_shown(text, lines)?;
    text.push_str("</tspan></text>\n")
}

fn width_of(scene: &Scene) -> u128
    ensures { result ≡ width_of scene.now }
{
    500 + 130 * (scene.lines.len() as u128)
}

fn height_of(scene: &Scene, lines: &[u8]) -> u128
    ensures { result ≡ height_of scene.now lines.now }
{
    y_of(scene.frames.len()) + 50 + 16 * (breaks_in(shown(lines)) as u128)
}

/// Adds the beginning.
#[tactic(auto, unfolding(crate::specs::Pages::begun_text))]
fn push_begun(
    text: &mut String,
    namespace: &str,
    style: &str,
    scene: &Scene,
    lines: &[u8],
) -> Result<(), AllocError>
    ensures { OnOk result (string_bytes text.new ≡ string_bytes text.old ++ begun_text namespace.now style.now scene.now lines.now) }
{
    push_open(text, namespace, width_of(scene), height_of(scene, lines))?;
    text.push_str(style)
}

/// Adds what stands above the lifelines.
#[tactic(auto, unfolding(crate::specs::Pages::headed_text))]
fn push_headed(
    text: &mut String,
    legend: &str,
    extent: Extent,
    scene: &Scene,
) -> Result<(), AllocError>
    ensures { OnOk result (string_bytes text.new ≡ string_bytes text.old ++ headed_text legend.now extent scene.now) }
{
    push_head(text, extent, scene)?;
    text.push_str(legend)
}

/// Adds the lifelines, and what is on them.
#[tactic(auto, unfolding(crate::specs::Pages::body_text))]
fn push_body(text: &mut String, scene: &Scene, marks: &[Mark]) -> Result<(), AllocError>
    ensures { OnOk result (string_bytes text.new ≡ string_bytes text.old ++ body_text scene.now marks.now) }
{
    let frames = scene.frames.as_slice();
    push_lifelines(text, frames.len(), scene.lines.as_slice())?;
    push_marks(text, frames, marks)
}

/// Where the lines of versions begin.
fn foot_y(scene: &Scene) -> u128
    ensures { result ≡ foot_y scene.now }
{
    y_of(scene.frames.len()) + 40
}

/// Adds what stands under them.
#[tactic(auto, unfolding(crate::specs::Pages::foot_text))]
fn push_foot(text: &mut String, scene: &Scene, lines: &[u8]) -> Result<(), AllocError>
    ensures { OnOk result (string_bytes text.new ≡ string_bytes text.old ++ foot_text scene.now lines.now) }
{
    push_versions(text, foot_y(scene), lines)?;
    text.push_str("</svg>\n")
}

/// The picture of a scene, with these lines of versions under it.
pub(crate) fn page_of(
    alloc: Global,
    extent: Extent,
    scene: &Scene,
    lines: &[u8],
) -> Result<String, AllocError>
    ensures { IfOk result (λ text. string_bytes text ≡ page_text extent scene.now lines.now) }
{
    let marks = marks_of(alloc, scene)?;
    let mut text = String::new(alloc);
    push_begun(&mut text, NAMESPACE, STYLE, scene, lines)?;
    push_headed(&mut text, LEGEND, extent, scene)?;
    push_body(&mut text, scene, marks.as_slice())?;
    push_foot(&mut text, scene, lines)?;
    Ok(text)
}
