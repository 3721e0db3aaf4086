// Transitions: where a byte leads from a state, computed by a step of the simulation and kept in the table.

ghost use Rattle.std.specs.Prelude.{◌≡◌, ◌≤◌, ◌+◌, ◌*◌, Bool, List, true, length, take, drop, ◌<◌};
ghost use Rattle.awk_ere.specs.support.SimulationStep.{AreFor, leaves, behind};
ghost use Rattle.awk_ere.specs.support.Table.{IsKnown, IsState, IsEntry, Serves};

use crate::dfa::table::{DEAD, END_OF_TEXT, MATCH_FLAG, STRIDE, Table, UNKNOWN, entry_to};
use crate::pattern::Pattern;
use crate::scratch::Scratch;
use crate::simulation::{Input, PositionSet};

impl Pattern {
    // A step from a state: whether the flow leaves before the byte.
    #[cold]
    #[inline(never)]
    fn step_from(
        &self,
        scratch: &mut Scratch,
        state: u32,
        entering: bool,
        byte: u8,
        end: bool,
    ) -> bool
        requires same { Serves scratch.old self.now }
        requires known { IsKnown scratch.old.table state }
        ensures leaves { (st : Bool) (cs : List Bool) → IsState self.now scratch.old.table state st cs →
            result ≡ leaves self.now cs st entering end byte }
        ensures positions { (st : Bool) (cs : List Bool) → IsState self.now scratch.old.table state st cs →
            scratch.new.position_set.positions.items ≡ behind self.now cs st entering end byte }
        ensures table { scratch.new.table ≡ scratch.old.table }
        ensures same { Serves scratch.new self.now }
    {
        let number = state as usize / STRIDE - 1;
        scratch.position_set.load(&scratch.table, number);
        let input = Input {
            byte,
            start: number == 0,
            end,
        };
        self.step(&mut scratch.position_set, entering, input)
    }

    /// Where a byte leads from a state: an entry, which is computed and kept.
    #[cold]
    #[inline(never)]
    pub(crate) fn compute_transition(
        &self,
        scratch: &mut Scratch,
        state: u32,
        entering: bool,
        byte: u8,
    ) -> u32
        requires same { Serves scratch.old self.now }
        requires known { IsKnown scratch.old.table state }
        ensures some { 0 < result }
        ensures entry { (st : Bool) (cs : List Bool) → IsState self.now scratch.old.table state st cs →
            IsEntry self.now scratch.new.table st entering cs byte result }
        ensures same { Serves scratch.new self.now }
    {
        let hit = self.step_from(scratch, state, entering, byte, false);
        let table = &mut scratch.table;
        let positions = scratch.position_set.positions.as_slice();
        match table.find_or_add(positions) {
            Some(number) => {
                let entry = entry_to(number, hit);
                table.set(entering, state as usize + byte as usize, entry);
                entry
            }
            None => {
                table.make_room(positions.len());
                entry_to(table.add(positions), hit)
            }
        }
    }

    /// Whether the flow leaves from a state at the text's end.
    pub(crate) fn leaves_at_end(&self, scratch: &mut Scratch, state: u32, entering: bool) -> bool
        requires same { Serves scratch.old self.now }
        requires known { IsKnown scratch.old.table state }
        ensures leaves { (st : Bool) (cs : List Bool) → IsState self.now scratch.old.table state st cs →
            result ≡ leaves self.now cs st entering true 0 }
        ensures same { Serves scratch.new self.now }
    {
        let at = state as usize + END_OF_TEXT;
        let known = scratch.table.transitions(entering)[at];
        if known != UNKNOWN {
            return known >= MATCH_FLAG;
        }
        let leaves = self.step_from(scratch, state, entering, 0, true);
        scratch
            .table
            .set(entering, at, if leaves { MATCH_FLAG } else { DEAD });
        leaves
    }
}

impl PositionSet {
    // The positions of the state with a number.
    fn load(&mut self, table: &Table, number: usize)
        requires { number * length self.old.positions.items + length self.old.positions.items ≤ length table.now.rows.items }
        ensures positions { self.new.positions.items
            ≡ take (length self.old.positions.items) (drop (number * length self.old.positions.items) table.now.rows.items) }
        ensures same { (p : Pattern) → AreFor self.old p → AreFor self.new p }
    {
        table.load(number, self.positions.as_mut_slice());
    }
}
