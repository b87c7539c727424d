// What differs between batches, texts and nodes: how many a cell has, their numbers, and the push of one.
ghost use Rattle.std.specs.Prelude.{◌≡◌, List, ℕ};
ghost use Rattle.geometry.specs.declared.placement.Placement.{Placement};
ghost use Rattle.records.specs.declared.PreparedCell.{PreparedCell};
ghost use Rattle.records.specs.Records.{cell_geometry_at, cell_text_at, cell_node_at};
ghost use Rattle.plan_rules.specs.declared.Given.{Given};
ghost use Rattle.plan_rules.specs.World.{go};
ghost use Rattle.plan_rules.specs.OnTape.{given_of, LeavesFlow, push_geometry, push_text, push_node};
ghost use Rattle.visit_items.specs.Lists.{Push};

use geometry::placement::Placement;
use plan_rules::{Given, Halted, ScenePlan};
use records::PreparedCell;

pub trait Items {
    // how many a cell's record has
    ghost count: { PreparedCell → ℕ };

    // a sheet's bytes, a cell's offset, a list place: the number that stands there
    ghost numbers: { List ℕ → ℕ → ℕ → ℕ };

    // what the rules make of a number
    ghost push: { Given → Placement → Push };

    fn count(cell: &PreparedCell) -> u32
        ensures { result ≡ count cell.now };

    fn number(sheet: &[u8], at: usize, i: u32) -> u32
        ensures { result ≡ numbers sheet.now at i };

    fn push(
        given: &Given<'_>,
        out: &mut [u8],
        plan: ScenePlan,
        number: u32,
        transform: Placement,
    ) -> Result<ScenePlan, Halted>
        ensures { LeavesFlow result out.exit (push given.now transform number) plan out.entry };
}

pub struct Geometries;

impl Items for Geometries {
    ghost count = { λ r. r.geometries };

    ghost numbers = { cell_geometry_at };

    ghost push = { λ g p n w. go (push_geometry (given_of g) n p w) };

    fn count(cell: &PreparedCell) -> u32 {
        cell.geometries
    }

    fn number(sheet: &[u8], at: usize, i: u32) -> u32 {
        records::cell_geometry_at(sheet, at, i)
    }

    fn push(
        given: &Given<'_>,
        out: &mut [u8],
        plan: ScenePlan,
        number: u32,
        transform: Placement,
    ) -> Result<ScenePlan, Halted> {
        Ok(pushes::push_geometry(given, out, plan, number, transform))
    }
}

pub struct Texts;

impl Items for Texts {
    ghost count = { λ r. r.texts };

    ghost numbers = { cell_text_at };

    ghost push = { λ g p n w. go (push_text (given_of g) n p w) };

    fn count(cell: &PreparedCell) -> u32 {
        cell.texts
    }

    fn number(sheet: &[u8], at: usize, i: u32) -> u32 {
        records::cell_text_at(sheet, at, i)
    }

    fn push(
        given: &Given<'_>,
        out: &mut [u8],
        plan: ScenePlan,
        number: u32,
        transform: Placement,
    ) -> Result<ScenePlan, Halted> {
        Ok(pushes::push_text(given, out, plan, number, transform))
    }
}

pub struct Nodes;

impl Items for Nodes {
    ghost count = { λ r. r.nodes };

    ghost numbers = { cell_node_at };

    ghost push = { λ g p n w. push_node (given_of g) n p w };

    fn count(cell: &PreparedCell) -> u32 {
        cell.nodes
    }

    fn number(sheet: &[u8], at: usize, i: u32) -> u32 {
        records::cell_node_at(sheet, at, i)
    }

    fn push(
        given: &Given<'_>,
        out: &mut [u8],
        plan: ScenePlan,
        number: u32,
        transform: Placement,
    ) -> Result<ScenePlan, Halted> {
        pushes::push_node(given, out, plan, number, transform)
    }
}
