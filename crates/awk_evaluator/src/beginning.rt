// Calls of functions.

ghost use Rattle.std.specs.Prelude.{◌≡◌, ◌<◌, ◌≤◌, [], ◌∷◌, drop, slice_get, true};
ghost use Rattle.awk_resolve.specs.Nodes.{taken, values_among};
ghost use Rattle.awk_runtime.specs.Calling.{Gives};
ghost use Rattle.awk_evaluator.specs.Calling.{kept_by, BeginsCall, GivesAll};

use crate::machine::Machine;
use awk_resolve::Function;
use awk_resolve::node::ArgumentForm;
use awk_semantics::Halt;
use awk_storage::Caller;
use awk_value::Value;

/// How an argument is given.
#[inline(always)]
fn form_at(forms: &[ArgumentForm], index: usize) -> Option<ArgumentForm>
    ensures { result ≡ slice_get forms.now index }
{
    forms.get(index).copied()
}

/// How many values an argument takes.
#[inline(always)]
fn count_of(form: ArgumentForm) -> usize
    ensures count { result ≡ values_among (form ∷ []) }
    ensures low { result ≤ 1 }
{
    match form {
        ArgumentForm::Value => 1,
        ArgumentForm::Array(_) => 0,
    }
}

/// How many arguments are values.
fn values_among(forms: &[ArgumentForm]) -> usize
    ensures { result ≡ values_among forms.now }
{
    let mut count = 0;
    let mut index = 0;
    'forms: while let Some(form) = form_at(forms, index) {
        count += count_of(form);
        index += 1;
    }
    count
}

/// Whether one argument is given, which is a value.
#[inline(always)]
fn is_one_value(forms: &[ArgumentForm]) -> bool
    ensures { result ≡ true → forms.now ≡ ArgumentForm.Value ∷ [] }
{
    match forms {
        [ArgumentForm::Value] => true,
        _ => false,
    }
}

/// Whether two arguments are given, which are values.
#[inline(always)]
fn are_two_values(forms: &[ArgumentForm]) -> bool
    ensures { result ≡ true → forms.now ≡ ArgumentForm.Value ∷ ArgumentForm.Value ∷ [] }
{
    match forms {
        [ArgumentForm::Value, ArgumentForm::Value] => true,
        _ => false,
    }
}

impl Machine {
    /// Begins a call of a function: its height is checked, a step is spent, and its parameters are what the topmost values and the
    /// arrays give, or new. Gives the place of its body. (POSIX awk, User-Defined Functions)
    #[inline(always)]
    pub(crate) fn call(
        &mut self,
        function: &Function,
        forms: &[ArgumentForm],
        next: u32,
    ) -> Result<u32, Halt>
        requires { 0 < function.now.height }
        ensures { BeginsCall function.now forms.now next self.old result self.new }
    {
        self.runtime.check_height(function.height)?;
        self.runtime.spend()?;
        self.give_arguments(forms)?;
        let caller = Caller {
            next,
            base: self.operands.base(),
        };
        self.runtime
            .enter_call(function.arrays.as_slice(), function.height, caller)?;
        self.operands.enter();
        Ok(function.body)
    }

    /// Gives the call that is about to be made its arguments, and takes the values off the stack.
    #[inline(always)]
    fn give_arguments(&mut self, forms: &[ArgumentForm]) -> Result<(), Halt>
        ensures { GivesAll forms.now self.old result self.new }
    {
        if is_one_value(forms) {
            return self.give_top();
        }
        if forms.is_empty() {
            return Ok(());
        }
        if are_two_values(forms) {
            return self.give_two(forms);
        }
        self.give_each(forms)
    }

    /// Gives the call that is about to be made the topmost value, which is taken off the stack.
    #[inline(always)]
    fn give_top(&mut self) -> Result<(), Halt>
        ensures { GivesAll (ArgumentForm.Value ∷ []) self.old result self.new }
    {
        if let Some(n) = self.operands.number() {
            self.operands.pop();
            return self.runtime.give_value(Value::Number(n));
        }
        let value = self.operands.pop();
        self.runtime.give_value(value)
    }

    /// As `give_top`, of two values. Numbers are given as they are.
    #[inline(always)]
    fn give_two(&mut self, forms: &[ArgumentForm]) -> Result<(), Halt>
        requires { forms.now ≡ ArgumentForm.Value ∷ ArgumentForm.Value ∷ [] }
        ensures { GivesAll forms.now self.old result self.new }
    {
        let Some(left) = self.operands.number_below() else {
            return self.give_each(forms);
        };
        let Some(right) = self.operands.number() else {
            return self.give_each(forms);
        };
        self.operands.pop();
        self.operands.pop();
        self.runtime.give_value(Value::Number(left))?;
        self.runtime.give_value(Value::Number(right))
    }

    /// As `give_arguments`, one after the other.
    #[inline(never)]
    fn give_each(&mut self, forms: &[ArgumentForm]) -> Result<(), Halt>
        ensures { GivesAll forms.now self.old result self.new }
    {
        let count = values_among(forms);
        let mut given = 0;
        let mut index = 0;
        'arguments: while let Some(form) = form_at(forms, index) {
            self.give_argument(form, count, given)?;
            given += count_of(form);
            index += 1;
        }
        self.operands.drop(count);
        Ok(())
    }

    /// Gives the call one argument; a value is the given one of so many topmost.
    fn give_argument(&mut self, form: ArgumentForm, count: usize, given: usize) -> Result<(), Halt>
        ensures gives { Gives (kept_by form (drop given (taken count self.old.operands.values)) self.old.runtime.frames) self.old.runtime self.new.runtime result }
        ensures operands { self.new.operands ≡ self.old.operands }
    {
        match form {
            ArgumentForm::Value => {
                let value = self.operands.copy_of(count, given)?;
                self.runtime.give_value(value)
            }
            ArgumentForm::Array(array) => self.runtime.give_array(array),
        }
    }
}
