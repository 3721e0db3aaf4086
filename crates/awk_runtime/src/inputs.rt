// Where the main records come from.

ghost use Rattle.std.specs.Prelude.{◌≡◌, ◌≢◌, ◌<◌, suc, [], length, take, drop, None, Some, Ok, IfSome, IfNone};
ghost use Rattle.awk_streams.specs.WorldState.{WorldState};
ghost use Rattle.awk_semantics.specs.Streams.{take_record, close_main};
ghost use Rattle.awk_semantics.specs.Inputs.{path_of, assign_text, main_record, first_record};
ghost use Rattle.awk_semantics.specs.Inputs.{operand_record, standard_record, search_operands, next_record};
ghost use Rattle.awk_runtime.specs.support.Simulation.{IsReady, Changes, Follows};
ghost use Rattle.awk_runtime.specs.support.Inputs.{BeginsWhere, OpensMainInput, Seeks};

use crate::operands::{OperandForm, form_of};
use crate::runtime::Runtime;
use awk_kinds::Special;
use awk_semantics::Halt;
use awk_streams::{InputKind, World};
use awk_value::{Bytes, text_of};

// The path of an input; standard input has none.
fn path_of(kind: InputKind, name: &Bytes) -> &[u8]
    ensures path { result.now ≡ path_of kind name.now }
    ensures standard { kind ≡ InputKind.Standard → result.now ≡ [] }
{
    match kind {
        InputKind::Standard => b"",
        InputKind::File | InputKind::Command => name.as_slice(),
    }
}

impl Runtime {
    /// The next main record, from the elements of ARGV in turn, or from standard input for want of a file operand. `None`
    /// where no record is left. The faults are F1, F9 and F16, and those of an operand that assigns. (POSIX awk, OPERANDS and
    /// INPUT FILES)
    #[inline(always)]
    pub fn next_record<W: World>(&mut self, world: &mut W) -> Result<Option<Bytes>, Halt>
        requires ready { IsReady W.is_logged (W.state world.old) self.old.streams }
        ensures ready { IsReady W.is_logged (W.state world.new) self.new.streams }
        ensures follows { Follows W.is_logged next_record self.old (W.state world.old) self.new (W.state world.new) result }
    {
        match self.record_at_hand::<W>() {
            Some(text) => Ok(Some(text)),
            None => self.search_record(world),
        }
    }

    /// Reads the next main record, spends a step and makes it the record at hand, where it is at hand by an RS of one byte and a step
    /// is left: nothing is asked of a world then. `false`, and nothing changes, elsewhere. The faults are those of `begin_record`.
    /// (POSIX awk, INPUT FILES; RS)
    #[inline(always)]
    pub fn begin_at_hand<W: World>(&mut self) -> Result<bool, Halt>
        ensures begins { (k : WorldState) → IsReady W.is_logged k self.old.streams → BeginsWhere W.is_logged self.old k self.new k result }
    {
        if self.steps == 0 {
            return Ok(false);
        }
        let Some(text) = self.record_at_hand::<W>() else {
            return Ok(false);
        };
        self.steps -= 1;
        self.begin_record(text)?;
        Ok(true)
    }

    // The next main record, where it is at hand: nothing is asked of a world then.
    #[inline(always)]
    fn record_at_hand<W: World>(&mut self) -> Option<Bytes>
        ensures none { IfNone result (self.new ≡ self.old) }
        ensures steps { self.new.steps ≡ self.old.steps }
        ensures ready { (k : WorldState) → IsReady W.is_logged k self.old.streams → IsReady W.is_logged k self.new.streams }
        ensures follows { IfSome result (λ text. (k : WorldState) → IsReady W.is_logged k self.old.streams →
            Follows W.is_logged next_record self.old k self.new k (Ok (Some text))) }
    {
        let separator = self.specials.record_separator_byte()?;
        self.streams.main_record_at_hand(separator)
    }

    // The next main record, which may have to be read, or to be looked for behind the main input.
    #[inline(never)]
    fn search_record<W: World>(&mut self, world: &mut W) -> Result<Option<Bytes>, Halt>
        requires ready { IsReady W.is_logged (W.state world.old) self.old.streams }
        ensures ready { IsReady W.is_logged (W.state world.new) self.new.streams }
        ensures follows { Follows W.is_logged next_record self.old (W.state world.old) self.new (W.state world.new) result }
    {
        match self.main_record(world)? {
            Some(text) => Ok(Some(text)),
            None => self.search_operands(world),
        }
    }

    /// Closes the main input, if one is open. Takes no memory. (POSIX awk, INPUT FILES)
    pub fn close_main_input<W: World>(&mut self, world: &mut W)
        requires ready { IsReady W.is_logged (W.state world.old) self.old.streams }
        ensures ready { IsReady W.is_logged (W.state world.new) self.new.streams }
        ensures none { self.new.streams.main ≡ None }
        ensures follows { Follows W.is_logged close_main self.old (W.state world.old) self.new (W.state world.new) (Ok tt) }
    {
        self.streams.close_main(world);
    }

    // Looks at the elements of ARGV in turn, until one leads to a record.
    fn search_operands<W: World>(&mut self, world: &mut W) -> Result<Option<Bytes>, Halt>
        requires none { self.old.streams.main ≡ None }
        requires ready { IsReady W.is_logged (W.state world.old) self.old.streams }
        ensures ready { IsReady W.is_logged (W.state world.new) self.new.streams }
        ensures seeks { Seeks W.is_logged search_operands self.old (W.state world.old) self.new (W.state world.new) result }
    {
        while let Some(word) = self.take_argument()? {
            self.spend()?;
            if let Some(text) = self.operand_record(world, word)? {
                return Ok(Some(text));
            }
        }
        self.standard_record(world)
    }

    // The first record of standard input, unless a main input was found.
    fn standard_record<W: World>(&mut self, world: &mut W) -> Result<Option<Bytes>, Halt>
        requires none { self.old.streams.main ≡ None }
        requires ready { IsReady W.is_logged (W.state world.old) self.old.streams }
        ensures ready { IsReady W.is_logged (W.state world.new) self.new.streams }
        ensures seeks { Seeks W.is_logged standard_record self.old (W.state world.old) self.new (W.state world.new) result }
    {
        if self.input_seen {
            return Ok(None);
        }
        let name = Bytes::from_slice(self.alloc, b"")?;
        self.first_record(world, InputKind::Standard, name)
    }

    // The first record that an element of ARGV leads to, if it leads to one.
    fn operand_record<W: World>(
        &mut self,
        world: &mut W,
        word: Bytes,
    ) -> Result<Option<Bytes>, Halt>
        requires none { self.old.streams.main ≡ None }
        requires ready { IsReady W.is_logged (W.state world.old) self.old.streams }
        ensures ready { IsReady W.is_logged (W.state world.new) self.new.streams }
        ensures seeks { Seeks W.is_logged (operand_record word) self.old (W.state world.old) self.new (W.state world.new) result }
    {
        let bytes = word.as_slice();
        match form_of(bytes) {
            OperandForm::Nothing => Ok(None),
            OperandForm::Assignment(len) => {
                self.assign_operand(bytes, len)?;
                Ok(None)
            }
            OperandForm::StandardInput => self.first_record(world, InputKind::Standard, word),
            OperandForm::File => self.first_record(world, InputKind::File, word),
        }
    }

    // Assigns what an element of ARGV does, in which so many bytes of a name stand before the `=`.
    fn assign_operand(&mut self, word: &[u8], len: usize) -> Result<(), Halt>
        requires { len < length word.now }
        ensures { Changes (assign_text (take len word.now) (drop (suc len) word.now)) self.old self.new result }
    {
        self.assign_text(&word[..len], &word[len + 1..])
    }

    // Opens a main input under a name, and takes its first record.
    fn first_record<W: World>(
        &mut self,
        world: &mut W,
        kind: InputKind,
        name: Bytes,
    ) -> Result<Option<Bytes>, Halt>
        requires none { self.old.streams.main ≡ None }
        requires plain { kind ≢ InputKind.Command }
        requires ready { IsReady W.is_logged (W.state world.old) self.old.streams }
        ensures ready { IsReady W.is_logged (W.state world.new) self.new.streams }
        ensures seeks { Seeks W.is_logged (first_record kind name) self.old (W.state world.old) self.new (W.state world.new) result }
    {
        self.open_main(world, kind, path_of(kind, &name))?;
        self.begin_input(name)?;
        self.main_record(world)
    }

    // The next record of the main input, which is closed at its end.
    fn main_record<W: World>(&mut self, world: &mut W) -> Result<Option<Bytes>, Halt>
        requires ready { IsReady W.is_logged (W.state world.old) self.old.streams }
        ensures ready { IsReady W.is_logged (W.state world.new) self.new.streams }
        ensures seeks { Seeks W.is_logged main_record self.old (W.state world.old) self.new (W.state world.new) result }
    {
        match self.take_record(world)? {
            Some(text) => Ok(Some(text)),
            None => {
                self.close_main_input(world);
                Ok(None)
            }
        }
    }

    // The next record of the main input, by RS. `None` at its end, and where none is open.
    fn take_record<W: World>(&mut self, world: &mut W) -> Result<Option<Bytes>, Halt>
        requires ready { IsReady W.is_logged (W.state world.old) self.old.streams }
        ensures ready { IsReady W.is_logged (W.state world.new) self.new.streams }
        ensures follows { Follows W.is_logged take_record self.old (W.state world.old) self.new (W.state world.new) result }
    {
        if !self.streams.has_main() {
            return Ok(None);
        }
        let separator = text_of(self.alloc, self.specials.special(Special::Rs))?;
        Ok(self.streams.next_main(world, separator.as_slice())?)
    }

    // Opens a main input; standard input has no path.
    fn open_main<W: World>(
        &mut self,
        world: &mut W,
        kind: InputKind,
        path: &[u8],
    ) -> Result<(), Halt>
        requires none { self.old.streams.main ≡ None }
        requires plain { kind ≢ InputKind.Command }
        requires named { kind ≡ InputKind.Standard → path.now ≡ [] }
        requires ready { IsReady W.is_logged (W.state world.old) self.old.streams }
        ensures ready { IsReady W.is_logged (W.state world.new) self.new.streams }
        ensures opens { OpensMainInput W.is_logged kind path.now self.old (W.state world.old) self.new (W.state world.new) result }
    {
        Ok(self.streams.open_main(world, kind, path)?)
    }
}
