// Triangles in a hierarchy of boxes.
use crate::node::{Node, Row};
use crate::recent::Recent;
use std::marker::Model;

/// At most 1,000,000 triangles in a hierarchy of boxes, which passes over those in boxes that a segment or a ray
/// misses. Its answers are those of testing every triangle.
#[derive(Drop)]
pub struct Hier {
    pub(crate) nodes: Vec<Node>,
    pub(crate) rows: Vec<Row>,
    /// Rows whose triangles blocked a segment before. Whatever these cells hold, the answers are the same.
    pub(crate) recent: Recent,
}

impl Model for Hier {
    ghost use Rattle.std.specs.Prelude.{List};
    ghost use Rattle.lc_geom.specs.declared.triangle.Tri.{Tri};
    ghost use Rattle.lc_hier.specs.Rows.{list_of};
    ghost use Rattle.lc_hier.specs.Layout.{IsHierarchy};

    ghost Value = { List Tri };

    ghost view = { λ h. list_of h.rows.items };

    ghost invariant = { λ h. IsHierarchy h.nodes.items h.rows.items };
}
