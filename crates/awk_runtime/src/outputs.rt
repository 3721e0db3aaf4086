// Printing.

ghost use Rattle.std.specs.Prelude.{◌≡◌, pos, [], true, false, Ok, IfOk, IfSome};
ghost use Rattle.awk_value.specs.Values.{str_of};
ghost use Rattle.awk_world.specs.declared.world.OutputKind.TheVariants.{Command as OutputCommand};
ghost use Rattle.awk_world.specs.declared.world.Mode.TheVariants.{Truncate as ModeTruncate};
ghost use Rattle.awk_streams.specs.Streams.{IsTarget};
ghost use Rattle.awk_semantics.specs.State.{ret};
ghost use Rattle.awk_semantics.specs.Primitives.{print_line};
ghost use Rattle.awk_semantics.specs.Streams.{open_output, open_file, open_target};
ghost use Rattle.awk_semantics.specs.Semantics.{Functions, print_by};
ghost use Rattle.awk_runtime.specs.support.Simulation.{IsReady, Follows};
ghost use Rattle.awk_runtime.specs.support.Printing.{standard_named, print_at, print_field_at, PrintsTo, OpensTarget};

use crate::runtime::Runtime;
use awk_functions::{append_line, make_line};
use awk_grammar::tree::{PrintForm, Redirection};
use awk_kinds::Special;
use awk_semantics::Halt;
use awk_streams::{Mode, OutputKind, Target, World};
use awk_value::{Bytes, Value, text_of};

// The standard output of a name.
fn standard_named(name: &[u8]) -> Option<Target>
    ensures { result ≡ standard_named name.now }
{
    if name == b"/dev/stdout".as_slice() {
        Some(Target::StandardOutput)
    } else if name == b"/dev/stderr".as_slice() {
        Some(Target::StandardError)
    } else {
        None
    }
}

// The text of a value that is one.
#[inline(always)]
pub(crate) fn text_at_hand(value: &Value) -> Option<&Bytes>
    ensures { IfSome result (λ text. str_of value.now ≡ text.now) }
{
    match value {
        Value::Text(text) | Value::Input(text) => Some(text),
        Value::Nothing | Value::Number(_) => None,
    }
}

impl Runtime {
    /// Prints to standard output: the values, or the record where there are none, as a line by OFS and ORS, or the text that a
    /// format gives. The faults are F1 and F2, and those of a format F3 and F7. (POSIX awk, Output Statements)
    pub fn print<W: World>(
        &mut self,
        world: &mut W,
        form: PrintForm,
        values: &[Value],
    ) -> Result<(), Halt>
        requires ready { IsReady W.is_logged (W.state world.old) self.old.streams }
        ensures ready { IsReady W.is_logged (W.state world.new) self.new.streams }
        ensures follows { (functions : Functions) → Follows W.is_logged (print_at functions (ret 0) form values.now) self.old
            (W.state world.old) self.new (W.state world.new) result }
    {
        self.print_by(world, Target::StandardOutput, form, values)
    }

    /// Prints the record as a line to standard output, where its text and that of ORS are at hand and can be held back as they stand:
    /// what `print` does then, and nothing is asked of the world. `false`, and nothing changes, elsewhere. (POSIX awk, Output
    /// Statements)
    #[inline(always)]
    pub fn hold_record<W: World>(&mut self, world: &W) -> bool
        requires ready { IsReady W.is_logged (W.state world.now) self.old.streams }
        ensures ready { IsReady W.is_logged (W.state world.now) self.new.streams }
        ensures kept { result ≡ false → self.new ≡ self.old }
        ensures follows { result ≡ true → (functions : Functions) → Follows W.is_logged (print_at functions (ret 0) PrintForm.Print []) self.old
            (W.state world.now) self.new (W.state world.now) (Ok tt) }
    {
        let Some(text) = self.current.text_at_hand() else {
            return self.hold_fields(world);
        };
        let Some(end) = text_at_hand(self.specials.special(Special::Ors)) else {
            return false;
        };
        self.streams.hold(text.as_slice(), end.as_slice())
    }

    // As `hold_record`, of a record whose text is still to be made of its fields: the first time they are printed as they stand,
    // and it isn't made.
    #[inline(never)]
    fn hold_fields<W: World>(&mut self, world: &W) -> bool
        requires ready { IsReady W.is_logged (W.state world.now) self.old.streams }
        ensures ready { IsReady W.is_logged (W.state world.now) self.new.streams }
        ensures kept { result ≡ false → self.new ≡ self.old }
        ensures follows { result ≡ true → (functions : Functions) → Follows W.is_logged (print_at functions (ret 0) PrintForm.Print []) self.old
            (W.state world.now) self.new (W.state world.now) (Ok tt) }
    {
        if !self.current.lend_once() {
            return false;
        }
        let Some((fields, between)) = self.current.unjoined() else {
            return false;
        };
        let Some(end) = text_at_hand(self.specials.special(Special::Ors)) else {
            return false;
        };
        let (mut held, room) = self.streams.lend_output();
        let holds = append_line(&mut held, room, fields, between, end.as_slice());
        self.streams.take_output_back(held);
        holds
    }

    // As `hold_fields`, of field 0.
    #[inline(never)]
    fn hold_whole<W: World>(&mut self, world: &W) -> bool
        requires ready { IsReady W.is_logged (W.state world.now) self.old.streams }
        ensures ready { IsReady W.is_logged (W.state world.now) self.new.streams }
        ensures kept { result ≡ false → self.new ≡ self.old }
        ensures follows { result ≡ true → (functions : Functions) → Follows W.is_logged (print_field_at functions (pos 0)) self.old
            (W.state world.now) self.new (W.state world.now) (Ok tt) }
    {
        self.hold_record(world)
    }

    /// Prints the field of a number as a line to standard output, where it is the record or a stretch of it, the text of ORS is at
    /// hand, and both can be held back as they stand: nothing is asked of the world then. `false`, and nothing changes, elsewhere.
    /// (POSIX awk, Output Statements)
    #[inline(always)]
    pub fn hold_field<W: World>(&mut self, world: &W, number: i128) -> bool
        requires ready { IsReady W.is_logged (W.state world.now) self.old.streams }
        ensures ready { IsReady W.is_logged (W.state world.now) self.new.streams }
        ensures kept { result ≡ false → self.new ≡ self.old }
        ensures follows { result ≡ true → (functions : Functions) → Follows W.is_logged (print_field_at functions number) self.old
            (W.state world.now) self.new (W.state world.now) (Ok tt) }
    {
        if number == 0 {
            return self.hold_whole(world);
        }
        let Some(span) = self.current.stretch(number) else {
            return false;
        };
        let Some(text) = self.current.text_at_hand() else {
            return false;
        };
        let Some(end) = text_at_hand(self.specials.special(Special::Ors)) else {
            return false;
        };
        let field = &text.as_slice()[span.start..span.end];
        self.streams.hold(field, end.as_slice())
    }

    /// Prints the values as a line to standard output, where it can be held back with no memory: what `print` does then, and nothing
    /// is asked of the world. `false`, and nothing changes, elsewhere. (POSIX awk, Output Statements)
    #[inline(always)]
    pub fn hold_values<W: World>(&mut self, world: &W, values: &[Value]) -> bool
        requires ready { IsReady W.is_logged (W.state world.now) self.old.streams }
        ensures ready { IsReady W.is_logged (W.state world.now) self.new.streams }
        ensures kept { result ≡ false → self.new ≡ self.old }
        ensures follows { result ≡ true → (functions : Functions) → Follows W.is_logged (print_at functions (ret 0) PrintForm.Print values.now) self.old
            (W.state world.now) self.new (W.state world.now) (Ok tt) }
    {
        !values.is_empty() && self.hold_line(world, values)
    }

    // As `hold_values`, of a line of the values, of which there may be none.
    #[inline(always)]
    fn hold_line<W: World>(&mut self, world: &W, values: &[Value]) -> bool
        requires ready { IsReady W.is_logged (W.state world.now) self.old.streams }
        ensures ready { IsReady W.is_logged (W.state world.now) self.new.streams }
        ensures kept { result ≡ false → self.new ≡ self.old }
        ensures prints { result ≡ true → PrintsTo W.is_logged Target.StandardOutput (λ n. print_line n values.now) self.old (W.state world.now)
            self.new (W.state world.now) (Ok tt) }
    {
        let Some(between) = text_at_hand(self.specials.special(Special::Ofs)) else {
            return false;
        };
        let Some(end) = text_at_hand(self.specials.special(Special::Ors)) else {
            return false;
        };
        let (mut held, room) = self.streams.lend_output();
        let holds = append_line(&mut held, room, values, between.as_slice(), end.as_slice());
        self.streams.take_output_back(held);
        holds
    }

    /// Prints to the file or the command of a name, which is opened unless it is open; two names are the standard outputs.
    /// Besides the faults of a print there are F10 and F13. (POSIX awk, Output Statements)
    pub fn print_to<W: World>(
        &mut self,
        world: &mut W,
        form: PrintForm,
        values: &[Value],
        way: Redirection,
        name: &Value,
    ) -> Result<(), Halt>
        requires ready { IsReady W.is_logged (W.state world.old) self.old.streams }
        ensures ready { IsReady W.is_logged (W.state world.new) self.new.streams }
        ensures follows { (functions : Functions) → Follows W.is_logged (print_at functions (open_target way (str_of name.now)) form values.now)
            self.old (W.state world.old) self.new (W.state world.new) result }
    {
        let target = self.open_target(world, way, name)?;
        self.print_by(world, target, form, values)
    }

    // Opens what a redirection prints to, unless it is open.
    fn open_target<W: World>(
        &mut self,
        world: &mut W,
        way: Redirection,
        name: &Value,
    ) -> Result<Target, Halt>
        requires ready { IsReady W.is_logged (W.state world.old) self.old.streams }
        ensures ready { IsReady W.is_logged (W.state world.new) self.new.streams }
        ensures target { IfOk result (λ target. IsTarget target self.new.streams) }
        ensures opens { OpensTarget W.is_logged (open_target way (str_of name.now)) self.old (W.state world.old) self.new
            (W.state world.new) result }
    {
        let name = text_of(self.alloc, name)?;
        match way {
            Redirection::Truncate => self.open_file(world, &name, Mode::Truncate),
            Redirection::Append => self.open_file(world, &name, Mode::Append),
            Redirection::Pipe => {
                self.open_output(world, OutputKind::Command, &name, Mode::Truncate)
            }
        }
    }

    // Opens the file of a name, unless it is one of the standard outputs.
    fn open_file<W: World>(
        &mut self,
        world: &mut W,
        name: &Bytes,
        mode: Mode,
    ) -> Result<Target, Halt>
        requires ready { IsReady W.is_logged (W.state world.old) self.old.streams }
        ensures ready { IsReady W.is_logged (W.state world.new) self.new.streams }
        ensures target { IfOk result (λ target. IsTarget target self.new.streams) }
        ensures opens { OpensTarget W.is_logged (open_file name.now mode) self.old (W.state world.old) self.new
            (W.state world.new) result }
    {
        match standard_named(name.as_slice()) {
            Some(target) => Ok(target),
            None => self.open_output(world, OutputKind::File, name, mode),
        }
    }

    // Opens a named output, unless it is open.
    fn open_output<W: World>(
        &mut self,
        world: &mut W,
        kind: OutputKind,
        name: &Bytes,
        mode: Mode,
    ) -> Result<Target, Halt>
        requires command { kind ≡ OutputCommand → mode ≡ ModeTruncate }
        requires ready { IsReady W.is_logged (W.state world.old) self.old.streams }
        ensures ready { IsReady W.is_logged (W.state world.new) self.new.streams }
        ensures target { IfOk result (λ target. IsTarget target self.new.streams) }
        ensures opens { OpensTarget W.is_logged (open_output kind name.now mode) self.old (W.state world.old) self.new
            (W.state world.new) result }
    {
        Ok(self.streams.open_output(world, kind, name, mode)?)
    }

    // Prints to a target.
    fn print_by<W: World>(
        &mut self,
        world: &mut W,
        target: Target,
        form: PrintForm,
        values: &[Value],
    ) -> Result<(), Halt>
        requires target { IsTarget target self.old.streams }
        requires ready { IsReady W.is_logged (W.state world.old) self.old.streams }
        ensures ready { IsReady W.is_logged (W.state world.new) self.new.streams }
        ensures prints { (functions : Functions) → PrintsTo W.is_logged target (λ n. print_by functions form n values.now) self.old
            (W.state world.old) self.new (W.state world.new) result }
    {
        match form {
            PrintForm::Print => {
                if values.is_empty() {
                    self.print_record(world, target)
                } else {
                    self.print_values(world, target, values)
                }
            }
            PrintForm::Printf => self.print_format(world, target, values),
        }
    }

    // Prints the record as a line.
    fn print_record<W: World>(&mut self, world: &mut W, target: Target) -> Result<(), Halt>
        requires target { IsTarget target self.old.streams }
        requires ready { IsReady W.is_logged (W.state world.old) self.old.streams }
        ensures ready { IsReady W.is_logged (W.state world.new) self.new.streams }
        ensures prints { (functions : Functions) → PrintsTo W.is_logged target (λ n. print_by functions PrintForm.Print n []) self.old
            (W.state world.old) self.new (W.state world.new) result }
    {
        let text = self.record_text()?;
        self.print_values(world, target, &[text])
    }

    // Prints the values as a line, by OFS and ORS.
    fn print_values<W: World>(
        &mut self,
        world: &mut W,
        target: Target,
        values: &[Value],
    ) -> Result<(), Halt>
        requires target { IsTarget target self.old.streams }
        requires ready { IsReady W.is_logged (W.state world.old) self.old.streams }
        ensures ready { IsReady W.is_logged (W.state world.new) self.new.streams }
        ensures prints { PrintsTo W.is_logged target (λ n. print_line n values.now) self.old (W.state world.old) self.new
            (W.state world.new) result }
    {
        let between = self.specials.special(Special::Ofs);
        let behind = self.specials.special(Special::Ors);
        make_line(&mut self.line, values, between, behind)?;
        Ok(self.streams.print(world, target, &self.line)?)
    }

    // Prints the text that the first value, a format, gives of the others.
    fn print_format<W: World>(
        &mut self,
        world: &mut W,
        target: Target,
        values: &[Value],
    ) -> Result<(), Halt>
        requires target { IsTarget target self.old.streams }
        requires ready { IsReady W.is_logged (W.state world.old) self.old.streams }
        ensures ready { IsReady W.is_logged (W.state world.new) self.new.streams }
        ensures prints { (functions : Functions) → PrintsTo W.is_logged target (λ n. print_by functions PrintForm.Printf n values.now) self.old
            (W.state world.old) self.new (W.state world.new) result }
    {
        self.formats.format_values(values, &mut self.line)?;
        Ok(self.streams.print(world, target, &self.line)?)
    }
}
