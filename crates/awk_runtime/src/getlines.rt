// getline.

ghost use Rattle.std.specs.Prelude.{◌≢◌, Some};
ghost use Rattle.awk_value.specs.Values.{str_of};
ghost use Rattle.awk_semantics.specs.Streams.{ARecord, next_of};
ghost use Rattle.awk_semantics.specs.Places.{count_of};
ghost use Rattle.awk_storage.specs.Forms.{receive_at, receive_main_at, main_getline_at, receive_named_at, named_getline_at};
ghost use Rattle.awk_runtime.specs.support.Simulation.{IsReady, Changes, Follows};
ghost use Rattle.awk_runtime.specs.support.NamedInputs.{answers_of};

use crate::outputs::text_at_hand;
use crate::runtime::Runtime;
use awk_kinds::Special;
use awk_semantics::Halt;
use awk_storage::Place;
use awk_streams::{InputKind, NextNamed, World};
use awk_value::{Bytes, Value, text_of};

impl Runtime {
    /// Reads the next main record into a place, or for want of one makes it the record at hand, and counts it in NR and FNR.
    /// Gives 1, or 0 where no record is left. The faults are those of a main record and of an assignment. (POSIX awk,
    /// Input/Output and General Functions: getline)
    pub fn main_getline_at<W: World>(
        &mut self,
        world: &mut W,
        place: Option<Place>,
        operand: &Value,
    ) -> Result<Value, Halt>
        requires ready { IsReady W.is_logged (W.state world.old) self.old.streams }
        ensures ready { IsReady W.is_logged (W.state world.new) self.new.streams }
        ensures follows { Follows W.is_logged (main_getline_at self.old.names.scalars place operand.now) self.old
            (W.state world.old) self.new (W.state world.new) result }
    {
        match self.next_record(world)? {
            Some(text) => self.receive_main(place, operand, text),
            None => Ok(Value::Number(0)),
        }
    }

    /// Reads the next record of a file or a command into a place, or for want of one makes it the record at hand; a record of
    /// a command is counted in NR. Gives 1, 0 where the input has ended, and -1 where it can't be opened or broke. The faults
    /// are F1, F2, F13 and F16, and those of an assignment. (POSIX awk, Input/Output and General Functions: getline)
    pub fn named_getline_at<W: World>(
        &mut self,
        world: &mut W,
        kind: InputKind,
        name: &Value,
        place: Option<Place>,
        operand: &Value,
    ) -> Result<Value, Halt>
        requires named { kind ≢ InputKind.Standard }
        requires ready { IsReady W.is_logged (W.state world.old) self.old.streams }
        ensures ready { IsReady W.is_logged (W.state world.new) self.new.streams }
        ensures follows { Follows W.is_logged (named_getline_at self.old.names.scalars kind (str_of name.now) place operand.now)
            self.old (W.state world.old) self.new (W.state world.new) result }
    {
        match self.next_of(world, kind, name)? {
            NextNamed::Record(text) => self.receive_named(kind, place, operand, text),
            NextNamed::End => Ok(Value::Number(0)),
            NextNamed::NotReadable => Ok(Value::Number(-1)),
        }
    }

    // The next record of a file or a command, by RS; it is opened unless it is open.
    fn next_of<W: World>(
        &mut self,
        world: &mut W,
        kind: InputKind,
        name: &Value,
    ) -> Result<NextNamed, Halt>
        requires named { kind ≢ InputKind.Standard }
        requires ready { IsReady W.is_logged (W.state world.old) self.old.streams }
        ensures ready { IsReady W.is_logged (W.state world.new) self.new.streams }
        ensures follows { Follows W.is_logged (next_of kind (str_of name.now)) self.old (W.state world.old) self.new
            (W.state world.new) (answers_of result) }
    {
        if let Some(name) = text_at_hand(name)
            && let Some(separator) = text_at_hand(self.specials.special(Special::Rs))
        {
            return Ok(
                self.streams
                    .next_named(world, kind, name, separator.as_slice())?,
            );
        }
        self.next_of_any(world, kind, name)
    }

    // As `next_of`, where the name or RS is no text.
    #[inline(never)]
    fn next_of_any<W: World>(
        &mut self,
        world: &mut W,
        kind: InputKind,
        name: &Value,
    ) -> Result<NextNamed, Halt>
        requires named { kind ≢ InputKind.Standard }
        requires ready { IsReady W.is_logged (W.state world.old) self.old.streams }
        ensures ready { IsReady W.is_logged (W.state world.new) self.new.streams }
        ensures follows { Follows W.is_logged (next_of kind (str_of name.now)) self.old (W.state world.old) self.new
            (W.state world.new) (answers_of result) }
    {
        let name = text_of(self.alloc, name)?;
        let separator = text_of(self.alloc, self.specials.special(Special::Rs))?;
        Ok(
            self.streams
                .next_named(world, kind, &name, separator.as_slice())?,
        )
    }

    // A main record that was read.
    fn receive_main(
        &mut self,
        place: Option<Place>,
        operand: &Value,
        text: Bytes,
    ) -> Result<Value, Halt>
        ensures { Changes (receive_main_at self.old.names.scalars place operand.now (Some text)) self.old self.new result }
    {
        self.spend()?;
        self.receive(place, operand, text)?;
        self.count_in(Special::Nr)?;
        self.count_in(Special::Fnr)?;
        Ok(Value::Number(1))
    }

    // A record of a file or a command that was read.
    fn receive_named(
        &mut self,
        kind: InputKind,
        place: Option<Place>,
        operand: &Value,
        text: Bytes,
    ) -> Result<Value, Halt>
        ensures { Changes (receive_named_at self.old.names.scalars kind place operand.now (ARecord text)) self.old self.new result }
    {
        self.receive(place, operand, text)?;
        self.count_of(kind)?;
        Ok(Value::Number(1))
    }

    // A record of a command counts in NR, and one of a file doesn't.
    fn count_of(&mut self, kind: InputKind) -> Result<(), Halt>
        ensures { Changes (count_of kind) self.old self.new result }
    {
        match kind {
            InputKind::Command => self.count_in(Special::Nr),
            InputKind::Standard | InputKind::File => Ok(()),
        }
    }

    // A record that was read goes to a place, or is the record at hand.
    fn receive(&mut self, place: Option<Place>, operand: &Value, text: Bytes) -> Result<(), Halt>
        ensures { Changes (receive_at self.old.names.scalars place operand.now text) self.old self.new result }
    {
        match place {
            None => self.set_record(text),
            Some(place) => self.store_at(place, operand, Value::Input(text)),
        }
    }
}
