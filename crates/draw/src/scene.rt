//! What is drawn.
use super::frame::Frame;
use farm_base::Items;

/// The lifelines that are drawn, from the left, and the events, from the top. The first frame is what was before them.
#[derive(Drop)]
pub struct Scene {
    pub lines: Items<u32>,
    pub frames: Items<Frame>,
}
