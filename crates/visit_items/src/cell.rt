// The lists of an open cell, as `visit_cell` goes through them: at an exhausted budget the cell's box is added, if it has one, and the visit is over.
ghost use Rattle.plan_rules.specs.declared.Reason.TheVariants.{OtherLimit};
ghost use Rattle.plan_rules.specs.OnTape.{given_of, Leaves, LeavesFlow, add_load_if_boxed};
ghost use Rattle.visit_items.specs.Lists.{opened, cell_list, cell_lists};

use crate::{Geometries, Items, Nodes, OpenCell, Texts, push_numbers};
use events::add_load_if_boxed;
use limits::detail_budget_exhausted;
use plan_rules::{Given, Halted, Reason, ScenePlan};

impl OpenCell {
    // A limit is met in the visit of the cell.
    pub fn load(&self, out: &mut [u8], plan: ScenePlan) -> ScenePlan
        ensures { Leaves result out.exit (add_load_if_boxed OtherLimit self.now.number self.now.bounds) plan out.entry }
    {
        add_load_if_boxed(out, plan, Reason::OtherLimit, self.number, self.bounds)
    }

    fn push_list<I: Items>(
        &self,
        given: &Given<'_>,
        out: &mut [u8],
        plan: ScenePlan,
    ) -> Result<ScenePlan, Halted>
        ensures { LeavesFlow result out.exit (cell_list (given_of given.now) (I.push given.now self.now.transform) (I.numbers given.now.sheet.now self.now.at) self.now (I.count self.now.«record»)) plan out.entry }
    {
        let count = I::count(&self.record);
        if count == 0 {
            return Ok(plan);
        }
        if detail_budget_exhausted(given.fixed, plan) {
            return Err(Halted {
                plan: self.load(out, plan),
            });
        }
        let first = I::number(given.sheet, self.at, 0);
        // Kept: a `match` for `map_err`: what a closure that is not called leaves of `out` is in no clause, so the proof doesn't close.
        match push_numbers::<I>(given, out, plan, first, self.at, count, self.transform) {
            Ok(listed) => Ok(listed),
            Err(halted) => Err(Halted {
                plan: self.load(out, halted.plan),
            }),
        }
    }

    // All its lists.
    pub fn push_items(
        &self,
        given: &Given<'_>,
        out: &mut [u8],
        plan: ScenePlan,
    ) -> Result<ScenePlan, Halted>
        ensures { LeavesFlow result out.exit (cell_lists (given_of given.now) self.now (opened given.now.sheet.now self.now)) plan out.entry }
    {
        let after_geometries = self.push_list::<Geometries>(given, out, plan)?;
        let after_texts = self.push_list::<Texts>(given, out, after_geometries)?;
        self.push_list::<Nodes>(given, out, after_texts)
    }
}
