// Nodes: what a program is lowered to. Each names what follows it, which stands before it in the list.

use awk_grammar::tree::{BinaryOperator, PrintForm, Redirection, UnaryOperator};
use awk_lex::token::{AssignmentOperator, BuiltIn, IncrementOperator, Operator};
use awk_storage::{Array, Place, Variable};
use awk_value::Value;

/// How an argument of a call of a function is given: by a value on the stack, or as an array.
#[derive(Clone, Copy)]
pub enum ArgumentForm {
    Value,
    Array(Array),
}

/// What separates the pieces of a `split`: what FS stands for, a text on the stack, or an ERE of the program.
#[derive(Clone, Copy)]
pub enum SplitBy {
    FieldSeparator,
    Value,
    Ere(u32),
}

/// Where `getline` reads from. The name of a file is the topmost value; a command lies below the operand of the place.
#[derive(Clone, Copy)]
pub enum Source {
    Main,
    File,
    Command,
}

/// An operand that is read where it stands, and not from the stack.
#[derive(Drop)]
pub enum Operand {
    Constant(Value),
    Variable(Variable),
    /// The field of a number of the program.
    Field(u32),
    /// The field whose number a variable holds.
    FieldAt(Variable),
}

/// The key of an element, read where it stands.
#[derive(Drop)]
pub enum Key {
    At(Operand),
    /// The texts of operands, one behind the other.
    Joined(Vec<Operand>),
}

/// A place that needs nothing from the stack.
#[derive(Drop)]
pub enum Target {
    Variable(Variable),
    Element(Array, Key),
}

/// What is exchanged where it stands: matches of an ERE of the program, with a value of the program; in a variable or in the record.
#[derive(Drop)]
pub struct Exchange {
    /// Whether all matches are exchanged, and not the first alone.
    pub all: bool,
    /// The number of the ERE.
    pub ere: u32,
    pub replacement: Value,
    pub variable: Option<Variable>,
}

/// A built-in function that reaches the outside, beside `getline`.
#[derive(Clone, Copy)]
pub enum OutsideCall {
    Close,
    System,
    /// Flushes all outputs.
    FlushAll,
    /// Flushes each output whose name is a value.
    Flush,
}

/// What is asked by a test that is neither a comparison nor a match.
#[derive(Drop)]
pub enum Tested {
    /// Whether the topmost value is true, which is taken off.
    Top,
    /// Whether a range is inside, by the number of its item.
    Inside(u32),
    /// Whether the number that a target had is true, which is raised or lowered by 1.
    Raised(IncrementOperator, Target),
    /// Whether an array has an element at a key.
    Element(Array, Key),
}

/// As which statement a node ends all calls.
#[derive(Clone, Copy)]
pub enum Ending {
    Next,
    Exit,
}

/// What takes values off the stack and puts one on it. The operand that was evaluated last is the topmost.
#[derive(Drop)]
pub enum ValueNode {
    /// What is read where it stands.
    Put(Operand),
    /// Whether what is read where it stands has a match of an ERE of the program, by its number.
    Matches(Operand, u32),
    Operate(BinaryOperator),
    /// The right operand is read where it stands.
    OperateWith(BinaryOperator, Operand),
    /// Both operands are read where they stand.
    OperateOn(BinaryOperator, Operand, Operand),
    /// The texts of so many values, one behind the other.
    ConcatenateAll(u32),
    /// `~` or `!~`, with an ERE of the program on the right.
    MatchesEre(Operator, u32),
    Change(UnaryOperator),
    ReadField,
    /// The element at a key that is read where it stands, or at the topmost value.
    ReadElement(Array, Option<Key>),
    /// Whether there is an element at such a key.
    Contains(Array, Option<Key>),
    /// Several subscripts as one text.
    Key(u32),
    /// The number of a field that is a place.
    FieldNumber,
    Assign(AssignmentOperator, Place),
    /// Assigns a variable the text of a value that it had, with that of another one behind it.
    Append(Variable),
    PreIncrement(IncrementOperator, Place),
    PostIncrement(IncrementOperator, Place),
    /// The number that a target had, which is raised or lowered by 1.
    PostIncrementAt(IncrementOperator, Target),
    /// The value of a place, whose operand stays on the stack.
    Load(Place),
    RecordLength,
    /// How many elements an array has.
    CountElements(Array),
    /// A built-in function of so many values.
    Apply(BuiltIn, u32),
    /// As `Apply`, of operands that are read where they stand, with so many values behind them.
    ApplyTo(BuiltIn, Vec<Operand>, u32),
    Match(Option<u32>),
    Split(Array, SplitBy),
    /// `gsub`, or else `sub`; by an ERE or a text on the stack; in a place or in the record.
    Substitute(bool, Option<u32>, Option<Place>),
    /// As `Substitute`, with nothing on the stack.
    SubstituteIn(Exchange),
    /// `getline`, to a place or to the record.
    Getline(Source, Option<Place>),
    /// A built-in function that reaches the outside.
    Outside(OutsideCall),
    /// A call of a function of the program, by its number.
    Call(u32, Vec<ArgumentForm>),
}

/// What takes values off the stack and puts none on it.
#[derive(Drop)]
pub enum EffectNode {
    /// Spends a step, and exchanges matches; how many that are is of no use.
    Exchange(Exchange),
    Drop(u32),
    Delete(Array),
    /// Deletes all elements of an array.
    Clear(Array),
    /// Closes the main input, if one is open.
    EndInput,
    /// A print of so many values, to standard output or to a target whose name is the topmost value.
    Print(PrintForm, u32, Option<Redirection>),
    SetStatus,
    /// Notes whether a range is inside, by the number of its item.
    SetInside(u32, bool),
}

/// One node. Places are indices of the list of nodes, and heads numbers of loops.
#[derive(Drop)]
pub enum Node {
    Value(ValueNode, u32),
    Effect(EffectNode, u32),
    /// Spends a step.
    Spend(u32),
    /// Goes on at the first place where a test holds, and else at the second.
    Test(Tested, u32, u32),
    /// As `Test`, of what an operator makes of the topmost value and an operand.
    CompareWith(BinaryOperator, Operand, u32, u32),
    /// As `Test`, of what an operator makes of two operands.
    Compare(BinaryOperator, Operand, Operand, u32, u32),
    /// As `Test`, of whether an operand has a match of an ERE of the program.
    Match(Operand, u32, u32, u32),
    /// Assigns the topmost value to a place, whose operand lies below it; both are taken off.
    Assign(AssignmentOperator, Place, u32),
    /// Raises or lowers the number of a place by 1, and takes the operand of the place off.
    Raise(IncrementOperator, Place, u32),
    /// Spends a step, and assigns an operand to a target.
    Update(AssignmentOperator, Target, Operand, u32),
    /// Spends a step, and raises or lowers a target's number by 1.
    Increment(IncrementOperator, Target, u32),
    /// Assigns a variable its text with those of so many values behind it, and takes these off.
    AppendTo(Variable, u32, u32),
    /// Spends a step, and assigns a target its text with those of operands behind it.
    AppendOperands(Target, Vec<Operand>, u32),
    /// Spends a step, and prints operands, of which there is one at least, as a line to standard output.
    Print(Vec<Operand>, u32),
    /// A turn of a loop, whose body's place is known by the loop's number.
    Again(u32),
    /// Puts the keys of an array and their count on the stack.
    Walk(Array, u32),
    /// A turn of a walk, by the number of its loop, or its exit where no key is left.
    NextKey(u32, u32),
    /// Takes the next key for the variable of a walk.
    TakeKey(Variable, u32),
    /// Takes the keys that are left, and their count, off the stack.
    LeaveWalk(u32),
    Return,
    /// Ends all calls.
    Stop(Ending),
    End,
}
