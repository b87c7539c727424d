// The records of the tape: batches, texts, node points, proxies and the totals.
ghost use Rattle.std.specs.Prelude.{drop, refl};
ghost use Rattle.plan_rules.specs.Event.{batch, text, point, totals, proxy_fields, fields_of};

use crate::numbers::put_all;
use crate::record::Record;
use geometry::bbox::WorldBBox;
use geometry::placement::{DVec2, Placement};
use plan_rules::ScenePlan;

// Where the floats begin in a body that has them: behind 4 bytes, a number or a layer and a type.
const FLOATS: usize = 4;

// Kind 11: a batch's number and placement.
#[derive(Clone, Copy)]
pub struct Batch {
    pub number: u32,
    pub placement: Placement,
}

impl Record for Batch {
    ghost body = { λ r. drop 2 (fields_of (batch r.number r.placement)) };

    ghost KIND = { 11 };

    ghost SIZE = { 58 };

    ghost sized = { λ r. refl };

    const KIND: u16 = 11;

    const SIZE: u32 = 58;

    fn put_body(&self, out: &mut [u8], at: usize) {
        let p = self.placement;
        fields::put_u32(out, at, self.number);
        put_all(out, at + FLOATS, &[p.xx, p.xy, p.yx, p.yy, p.tx, p.ty]);
    }
}

// Kind 12: a text's number and position.
#[derive(Clone, Copy)]
pub struct Text {
    pub number: u32,
    pub position: DVec2,
}

impl Record for Text {
    ghost body = { λ r. drop 2 (fields_of (text r.number r.position)) };

    ghost KIND = { 12 };

    ghost SIZE = { 26 };

    ghost sized = { λ r. refl };

    const KIND: u16 = 12;

    const SIZE: u32 = 26;

    fn put_body(&self, out: &mut [u8], at: usize) {
        fields::put_u32(out, at, self.number);
        put_all(out, at + FLOATS, &[self.position.x, self.position.y]);
    }
}

// Kind 13: a node point's layer and type, the lowest two bytes of each, and its position.
#[derive(Clone, Copy)]
pub struct Point {
    pub layer: u32,
    pub node_type: u32,
    pub position: DVec2,
}

impl Record for Point {
    ghost body = { λ r. drop 2 (fields_of (point r.layer r.node_type r.position)) };

    ghost KIND = { 13 };

    ghost SIZE = { 26 };

    ghost sized = { λ r. refl };

    const KIND: u16 = 13;

    const SIZE: u32 = 26;

    fn put_body(&self, out: &mut [u8], at: usize) {
        fields::put_u16(out, at, (self.layer % 0x1_0000) as u16);
        fields::put_u16(out, at + 2, (self.node_type % 0x1_0000) as u16);
        put_all(out, at + FLOATS, &[self.position.x, self.position.y]);
    }
}

// Kind 14: a proxy's label and box.
#[derive(Clone, Copy)]
pub struct Proxy {
    pub label: u32,
    pub bbox: WorldBBox,
}

impl Record for Proxy {
    ghost body = { λ r. drop 2 (proxy_fields r.label r.bbox) };

    ghost KIND = { 14 };

    ghost SIZE = { 42 };

    ghost sized = { λ r. refl };

    const KIND: u16 = 14;

    const SIZE: u32 = 42;

    fn put_body(&self, out: &mut [u8], at: usize) {
        let b = self.bbox;
        fields::put_u32(out, at, self.label);
        put_all(out, at + FLOATS, &[b.min_x, b.min_y, b.max_x, b.max_y]);
    }
}

// Kind 15: the six totals of `SceneStats` in its field order, and the dropped proxies.
impl Record for ScenePlan {
    ghost body = { λ plan. drop 2 (fields_of (totals plan)) };

    ghost KIND = { 15 };

    ghost SIZE = { 62 };

    ghost sized = { λ plan. refl };

    const KIND: u16 = 15;

    const SIZE: u32 = 62;

    fn put_body(&self, out: &mut [u8], at: usize) {
        let totals = [
            self.detail_cells,
            self.detail_objects,
            self.culled_references,
            self.skipped_subpixel_references,
            self.culled_geometry_batches,
            self.skipped_subpixel_geometry_batches,
            self.dropped_load_proxies,
        ];
        put_all(out, at, &totals);
    }
}
