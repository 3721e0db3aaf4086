// The values of nodes that reach the world.

ghost use Rattle.std.specs.Prelude.{◌≡◌, ◌≢◌, Bool, OnOk};
ghost use Rattle.awk_world.specs.declared.world.InputKind.TheVariants.{Standard};
ghost use Rattle.awk_value.specs.Values.{str_of};
ghost use Rattle.awk_streams.specs.Commands.{BringsAll};
ghost use Rattle.awk_streams.specs.Flushes.{FlushesCalled};
ghost use Rattle.awk_storage.specs.Forms.{named_getline_at};
ghost use Rattle.awk_runtime.specs.Simulation.{IsReady, Follows};
ghost use Rattle.awk_resolve.specs.Nodes.{first, place_operands};
ghost use Rattle.awk_resolve.specs.declared.node.ValueNode.TheVariants.{Getline, Outside};
ghost use Rattle.awk_resolve.specs.declared.node.Source.TheVariants.{Main, File, Command};
ghost use Rattle.awk_evaluator.specs.Moves.{Evaluates};

use crate::machine::Machine;
use crate::values::operand_count;
use awk_resolve::node::{OutsideCall, Source};
use awk_semantics::Halt;
use awk_storage::Place;
use awk_streams::{InputKind, World};
use awk_value::Value;

/// How many values lie on the stack for a place, if there is one.
fn place_operand_count(place: Option<Place>) -> usize
    ensures { result ≡ place_operands place }
{
    match place {
        Some(place) => operand_count(place),
        None => 0,
    }
}

impl Machine {
    /// Reads a record. (POSIX awk, Input/Output and General Functions: getline)
    #[inline(never)]
    pub(crate) fn getline<W: World>(
        &mut self,
        world: &mut W,
        source: Source,
        place: Option<Place>,
    ) -> Result<Value, Halt>
        requires ready { IsReady W.is_logged (W.state world.old) self.old.runtime.streams }
        ensures ready { IsReady W.is_logged (W.state world.new) self.new.runtime.streams }
        ensures evaluates { Evaluates W.is_logged (Getline source place) self.old (W.state world.old) result self.new (W.state world.new) }
    {
        match source {
            Source::Main => self.getline_from_main(world, place),
            Source::File => self.getline_from_file(world, place),
            Source::Command => self.getline_from_command(world, place),
        }
    }

    // From the main input.
    fn getline_from_main<W: World>(
        &mut self,
        world: &mut W,
        place: Option<Place>,
    ) -> Result<Value, Halt>
        requires ready { IsReady W.is_logged (W.state world.old) self.old.runtime.streams }
        ensures ready { IsReady W.is_logged (W.state world.new) self.new.runtime.streams }
        ensures evaluates { Evaluates W.is_logged (Getline Main place) self.old (W.state world.old) result self.new (W.state world.new) }
    {
        let nothing = Value::Nothing;
        let operand = self.operands.top_or(&nothing);
        let answer = self.runtime.main_getline_at(world, place, operand);
        drop(nothing);
        let answer = answer?;
        self.operands.drop(place_operand_count(place));
        Ok(answer)
    }

    // From the file whose name is the topmost operand.
    fn getline_from_file<W: World>(
        &mut self,
        world: &mut W,
        place: Option<Place>,
    ) -> Result<Value, Halt>
        requires ready { IsReady W.is_logged (W.state world.old) self.old.runtime.streams }
        ensures ready { IsReady W.is_logged (W.state world.new) self.new.runtime.streams }
        ensures evaluates { Evaluates W.is_logged (Getline File place) self.old (W.state world.old) result self.new (W.state world.new) }
    {
        let name = self.operands.pop();
        let answer = self.named_getline(world, InputKind::File, &name, place)?;
        self.operands.drop(place_operand_count(place));
        Ok(answer)
    }

    // From a named input, to a place whose operand is the topmost one and stays.
    fn named_getline<W: World>(
        &mut self,
        world: &mut W,
        kind: InputKind,
        name: &Value,
        place: Option<Place>,
    ) -> Result<Value, Halt>
        requires named { kind ≢ Standard }
        requires ready { IsReady W.is_logged (W.state world.old) self.old.runtime.streams }
        ensures ready { IsReady W.is_logged (W.state world.new) self.new.runtime.streams }
        ensures operands { self.new.operands ≡ self.old.operands }
        ensures follows { Follows W.is_logged (named_getline_at self.old.runtime.names.scalars kind (str_of name.now) place
            (first self.old.operands.values)) self.old.runtime (W.state world.old) self.new.runtime (W.state world.new) result }
    {
        let nothing = Value::Nothing;
        let operand = self.operands.top_or(&nothing);
        let answer = self
            .runtime
            .named_getline_at(world, kind, name, place, operand);
        drop(nothing);
        answer
    }

    // From the command that lies below the operand of the place.
    fn getline_from_command<W: World>(
        &mut self,
        world: &mut W,
        place: Option<Place>,
    ) -> Result<Value, Halt>
        requires ready { IsReady W.is_logged (W.state world.old) self.old.runtime.streams }
        ensures ready { IsReady W.is_logged (W.state world.new) self.new.runtime.streams }
        ensures evaluates { Evaluates W.is_logged (Getline Command place) self.old (W.state world.old) result self.new (W.state world.new) }
    {
        let top = self.operands.pop();
        if place_operand_count(place) == 0 {
            return self
                .runtime
                .named_getline_at(world, InputKind::Command, &top, place, &top);
        }
        let command = self.operands.pop();
        self.runtime
            .named_getline_at(world, InputKind::Command, &command, place, &top)
    }

    /// Calls a built-in function that reaches the outside.
    pub(crate) fn call_outside<W: World>(
        &mut self,
        world: &mut W,
        call: OutsideCall,
    ) -> Result<Value, Halt>
        requires ready { IsReady W.is_logged (W.state world.old) self.old.runtime.streams }
        ensures ready { IsReady W.is_logged (W.state world.new) self.new.runtime.streams }
        ensures evaluates { Evaluates W.is_logged (Outside call) self.old (W.state world.old) result self.new (W.state world.new) }
    {
        match call {
            OutsideCall::Close => self.close(world),
            OutsideCall::System => self.system(world),
            OutsideCall::FlushAll => self.flush_all(world),
            OutsideCall::Flush => self.flush(world),
        }
    }

    /// Closes each stream whose name an operand is. (POSIX awk, Input/Output and General Functions: close)
    #[inline(never)]
    fn close<W: World>(&mut self, world: &mut W) -> Result<Value, Halt>
        requires ready { IsReady W.is_logged (W.state world.old) self.old.runtime.streams }
        ensures ready { IsReady W.is_logged (W.state world.new) self.new.runtime.streams }
        ensures evaluates { Evaluates W.is_logged (Outside OutsideCall.Close) self.old (W.state world.old) result self.new (W.state world.new) }
    {
        let name = self.operands.pop();
        Ok(Value::Number(self.runtime.close_named(world, &name)?))
    }

    /// Runs the command that an operand is. (POSIX awk, Input/Output and General Functions: system)
    #[inline(never)]
    fn system<W: World>(&mut self, world: &mut W) -> Result<Value, Halt>
        requires ready { IsReady W.is_logged (W.state world.old) self.old.runtime.streams }
        ensures ready { IsReady W.is_logged (W.state world.new) self.new.runtime.streams }
        ensures evaluates { Evaluates W.is_logged (Outside OutsideCall.System) self.old (W.state world.old) result self.new (W.state world.new) }
    {
        let command = self.operands.pop();
        Ok(Value::Number(self.runtime.run_command(world, &command)?))
    }

    /// Flushes all outputs: each has then received what was printed to it.
    #[inline(never)]
    fn flush_all<W: World>(&mut self, world: &mut W) -> Result<Value, Halt>
        requires ready { IsReady W.is_logged (W.state world.old) self.old.runtime.streams }
        ensures ready { IsReady W.is_logged (W.state world.new) self.new.runtime.streams }
        ensures evaluates { Evaluates W.is_logged (Outside OutsideCall.FlushAll) self.old (W.state world.old) result self.new (W.state world.new) }
        ensures brings { OnOk result (W.is_logged → BringsAll (W.state world.old) self.old.runtime.streams (W.state world.new) self.new.runtime.streams) }
    {
        self.runtime.flush_all(world)?;
        Ok(Value::Number(0))
    }

    /// Flushes each open output whose name an operand is: it has then received what was printed to it.
    #[inline(never)]
    fn flush<W: World>(&mut self, world: &mut W) -> Result<Value, Halt>
        requires ready { IsReady W.is_logged (W.state world.old) self.old.runtime.streams }
        ensures ready { IsReady W.is_logged (W.state world.new) self.new.runtime.streams }
        ensures evaluates { Evaluates W.is_logged (Outside OutsideCall.Flush) self.old (W.state world.old) result self.new (W.state world.new) }
        ensures flushes { OnOk result (W.is_logged → (is_open : Bool) × FlushesCalled (str_of (first self.old.operands.values)) (W.state world.old)
            self.old.runtime.streams is_open (W.state world.new) self.new.runtime.streams) }
    {
        let name = self.operands.pop();
        Ok(Value::Number(self.runtime.flush_named(world, &name)?))
    }
}
