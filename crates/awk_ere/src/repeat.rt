// The instructions of repeats.

ghost use Rattle.std.specs.Prelude.{◌≡◌, ◌<◌, ◌≤◌, ◌+◌, ◌^◌, ◌++◌, length, take, drop, OnOk};
ghost use Rattle.awk_ere.specs.support.RepeatInstructions.{rounds, some_rounds, any_rounds, forks};
ghost use Rattle.awk_ere.specs.support.RepeatInstructions.{joins, up_to_rounds, repeat_instructions};

use crate::program::Instruction;
use crate::token::Repeat;
use std::alloc::AllocError;

/// The body so many times.
fn push_rounds(
    instructions: &mut Vec<Instruction>,
    body: &[Instruction],
    count: u16,
) -> Result<(), AllocError>
    ensures { OnOk result (instructions.new.items ≡ instructions.old.items ++ rounds count body.now) }
{
    for _ in 0..count {
        instructions.extend_from_slice(body)?;
    }
    Ok(())
}

/// One round of the body or more.
fn push_some(instructions: &mut Vec<Instruction>, body: &[Instruction]) -> Result<(), AllocError>
    requires { length body.now + 1 < 2 ^ 32 }
    ensures { OnOk result (instructions.new.items ≡ instructions.old.items ++ some_rounds body.now) }
{
    instructions.push(Instruction::Enter(body.len() as u32 + 1))?;
    instructions.extend_from_slice(body)?;
    instructions.push(Instruction::Leave)?;
    Ok(())
}

/// Any number of rounds of the body.
fn push_any(instructions: &mut Vec<Instruction>, body: &[Instruction]) -> Result<(), AllocError>
    requires { length body.now + 1 < 2 ^ 32 }
    ensures { OnOk result (instructions.new.items ≡ instructions.old.items ++ any_rounds body.now) }
{
    instructions.push(Instruction::Fork)?;
    push_some(instructions, body)?;
    instructions.push(Instruction::Swap)?;
    instructions.push(Instruction::Join)?;
    Ok(())
}

fn push_forks(
    instructions: &mut Vec<Instruction>,
    body: &[Instruction],
    count: u16,
) -> Result<(), AllocError>
    ensures { OnOk result (instructions.new.items ≡ instructions.old.items ++ forks count body.now) }
{
    for _ in 0..count {
        instructions.push(Instruction::Fork)?;
        instructions.extend_from_slice(body)?;
    }
    Ok(())
}

fn push_joins(instructions: &mut Vec<Instruction>, count: u16) -> Result<(), AllocError>
    ensures { OnOk result (instructions.new.items ≡ instructions.old.items ++ joins count) }
{
    for _ in 0..count {
        instructions.push(Instruction::Swap)?;
        instructions.push(Instruction::Join)?;
    }
    Ok(())
}

/// At most so many rounds of the body.
fn push_up_to(
    instructions: &mut Vec<Instruction>,
    body: &[Instruction],
    count: u16,
) -> Result<(), AllocError>
    ensures { OnOk result (instructions.new.items ≡ instructions.old.items ++ up_to_rounds count body.now) }
{
    push_forks(instructions, body, count)?;
    push_joins(instructions, count)
}

/// The rounds of the body that a repeat allows.
pub(crate) fn push_repeat(
    instructions: &mut Vec<Instruction>,
    body: &[Instruction],
    repeat: Repeat,
) -> Result<(), AllocError>
    requires { length body.now + 1 < 2 ^ 32 }
    ensures { OnOk result (instructions.new.items ≡ instructions.old.items ++ repeat_instructions repeat body.now) }
{
    match repeat {
        Repeat::Star => push_any(instructions, body),
        Repeat::Plus => push_some(instructions, body),
        Repeat::Option => push_up_to(instructions, body, 1),
        Repeat::Exactly(m) => push_rounds(instructions, body, m),
        Repeat::AtLeast(m) => {
            push_rounds(instructions, body, m)?;
            push_any(instructions, body)
        }
        Repeat::Between(m, n) => {
            push_rounds(instructions, body, m)?;
            push_up_to(instructions, body, n.saturating_sub(m))
        }
    }
}

/// In the place of the instructions from a place on, the rounds of them that a repeat allows.
pub(crate) fn repeat_from(
    instructions: &mut Vec<Instruction>,
    start: usize,
    repeat: Repeat,
) -> Result<(), AllocError>
    requires within { start ≤ length instructions.old.items }
    requires short { length instructions.old.items + 1 < 2 ^ 32 }
    ensures { OnOk result
        (instructions.new.items
        ≡ take start instructions.old.items ++ repeat_instructions repeat (drop start instructions.old.items)) }
{
    let alloc = *instructions.allocator();
    let body = Vec::from_slice(alloc, &instructions[start..])?;
    instructions.truncate(start);
    push_repeat(instructions, &body, repeat)
}
